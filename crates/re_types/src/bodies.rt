//! What declarations declare, over ids.
ghost use Rattle.std.specs.Prelude.{◌≡◌, true, count_by, IfOk, IfSome, Some};
ghost use Rattle.re_terms.specs.Kinds.{is_symbol_sort};
ghost use Rattle.re_terms.specs.Trees.{is_literal, is_region, is_whole_expr, is_body};
ghost use Rattle.re_terms.specs.Programs.{is_ranged};
ghost use Rattle.re_types.specs.Resolving.{is_known, knows_literal, knows_expr, knows_body, resolved_body};
ghost use Rattle.re_types.specs.Scopes.{IsScope};

use crate::scope::Scope;
use re_terms::{Body, Kind, RawBody, RawExpr, RawLit, Text};
use std::alloc::{AllocError, Global};

impl Scope<'_> {
    fn signal(&self, alloc: Global, raw: &RawExpr) -> Result<Option<Body>, AllocError>
        requires scope { IsScope self.now }
        requires known { knows_expr self.now.names raw.now ≡ true }
        requires raw { is_whole_expr raw.now ≡ true }
        ensures body { IfOk result (λ b. b ≡ resolved_body self.now (RawBody.Signal raw.now)) }
        ensures ranged { IfOk result (λ b. IfSome b (λ body. is_ranged (count_by is_symbol_sort self.now.sorts) body ≡ true)) }
    {
        let expr = self.whole_expr(alloc, raw)?;
        match self.one_kind(None, None, &expr) {
            Some(kind) => Ok(Some(Body::Signal { kind, expr })),
            None => Ok(None),
        }
    }

    fn mapped(
        &self,
        alloc: Global,
        source: &Text,
        raw: &RawExpr,
    ) -> Result<Option<Body>, AllocError>
        requires scope { IsScope self.now }
        requires source { is_known self.now.names source.now ≡ true }
        requires known { knows_expr self.now.names raw.now ≡ true }
        requires raw { is_whole_expr raw.now ≡ true }
        ensures body { IfOk result (λ b. b ≡ resolved_body self.now (RawBody.Map source.now raw.now)) }
        ensures ranged { IfOk result (λ b. IfSome b (λ body. is_ranged (count_by is_symbol_sort self.now.sorts) body ≡ true)) }
    {
        let source = self.id(source);
        let expr = self.whole_expr(alloc, raw)?;
        let Some(arg) = self.event_kind(source) else {
            return Ok(None);
        };
        match self.one_kind(Some(arg), None, &expr) {
            Some(kind) => Ok(Some(Body::Map { source, kind, expr })),
            None => Ok(None),
        }
    }

    fn filtered(&self, alloc: Global, source: &Text, raw: &RawExpr) -> Result<Body, AllocError>
        requires scope { IsScope self.now }
        requires source { is_known self.now.names source.now ≡ true }
        requires known { knows_expr self.now.names raw.now ≡ true }
        requires raw { is_whole_expr raw.now ≡ true }
        ensures body { IfOk result (λ b. resolved_body self.now (RawBody.Filter source.now raw.now) ≡ Some b) }
        ensures ranged { IfOk result (λ b. is_ranged (count_by is_symbol_sort self.now.sorts) b ≡ true) }
    {
        let source = self.id(source);
        let expr = self.whole_expr(alloc, raw)?;
        Ok(Body::Filter { source, expr })
    }

    fn fold(
        &self,
        alloc: Global,
        kind: Kind,
        start: &RawLit,
        source: &Text,
        raw: &RawExpr,
        region: u8,
    ) -> Result<Option<Body>, AllocError>
        requires scope { IsScope self.now }
        requires start { knows_literal self.now.names start.now ≡ true }
        requires literal { is_literal start.now ≡ true }
        requires source { is_known self.now.names source.now ≡ true }
        requires known { knows_expr self.now.names raw.now ≡ true }
        requires raw { is_whole_expr raw.now ≡ true }
        requires region { is_region region ≡ true }
        ensures body { IfOk result (λ b. b ≡ resolved_body self.now (RawBody.Fold kind start.now source.now raw.now region)) }
        ensures ranged { IfOk result (λ b. IfSome b (λ body. is_ranged (count_by is_symbol_sort self.now.sorts) body ≡ true)) }
    {
        let Some(start) = self.start_word(start) else {
            return Ok(None);
        };
        let source = self.id(source);
        let expr = self.whole_expr(alloc, raw)?;
        Ok(Some(Body::Fold {
            kind,
            start,
            source,
            expr,
            region,
        }))
    }

    fn var(&self, kind: Kind, start: &RawLit, region: u8) -> Option<Body>
        requires scope { IsScope self.now }
        requires known { knows_body self.now.names (RawBody.Var kind start.now region) ≡ true }
        requires raw { is_body (RawBody.Var kind start.now region) ≡ true }
        ensures body { result ≡ resolved_body self.now (RawBody.Var kind start.now region) }
        ensures ranged { IfSome result (λ b. is_ranged (count_by is_symbol_sort self.now.sorts) b ≡ true) }
    {
        let start = self.start_word(start)?;
        Some(Body::Var {
            kind,
            start,
            region,
        })
    }

    fn register(&self, kind: Kind, start: &RawLit) -> Option<Body>
        requires scope { IsScope self.now }
        requires known { knows_body self.now.names (RawBody.Register kind start.now) ≡ true }
        requires raw { is_body (RawBody.Register kind start.now) ≡ true }
        ensures body { result ≡ resolved_body self.now (RawBody.Register kind start.now) }
        ensures ranged { IfSome result (λ b. is_ranged (count_by is_symbol_sort self.now.sorts) b ≡ true) }
    {
        let start = self.start_word(start)?;
        Some(Body::Register { kind, start })
    }

    /// The body over ids.
    ///
    /// None where a start literal is no symbol's name, the source of a map is no event, or the
    /// expression of a signal or map has no one kind. The one refusal is want of memory.
    pub fn body(&self, alloc: Global, raw: &RawBody) -> Result<Option<Body>, AllocError>
        requires scope { IsScope self.now }
        requires known { knows_body self.now.names raw.now ≡ true }
        requires raw { is_body raw.now ≡ true }
        ensures body { IfOk result (λ b. b ≡ resolved_body self.now raw.now) }
        ensures ranged { IfOk result (λ b. IfSome b (λ body. is_ranged (count_by is_symbol_sort self.now.sorts) body ≡ true)) }
    {
        match raw {
            RawBody::Device => Ok(Some(Body::Device)),
            RawBody::Symbol => Ok(Some(Body::Symbol)),
            RawBody::Var {
                kind,
                start,
                region,
            } => Ok(self.var(*kind, start, *region)),
            RawBody::Event { kind } => Ok(Some(Body::Event { kind: *kind })),
            RawBody::Signal { expr } => self.signal(alloc, expr),
            RawBody::Changed { of } => Ok(Some(Body::Changed { of: self.id(of) })),
            RawBody::Map { source, expr } => self.mapped(alloc, source, expr),
            RawBody::Filter { source, expr } => Ok(Some(self.filtered(alloc, source, expr)?)),
            RawBody::Either { left, right } => Ok(Some(Body::Either {
                left: self.id(left),
                right: self.id(right),
            })),
            RawBody::Fold {
                kind,
                start,
                source,
                expr,
                region,
            } => self.fold(alloc, *kind, start, source, expr, *region),
            RawBody::Counter => Ok(Some(Body::Counter)),
            RawBody::Set { kind } => Ok(Some(Body::Set { kind: *kind })),
            RawBody::Register { kind, start } => Ok(self.register(*kind, start)),
        }
    }
}
