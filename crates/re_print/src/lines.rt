//! The lines of declarations, written behind a text.
ghost use Rattle.std.specs.Prelude.{◌≡◌, ◌++◌, OnOk, codes};
ghost use Rattle.std.specs.Fmt.{decimal};
ghost use Rattle.re_print.specs.Canonical.{kind_text, start_text, name_text, expr_text, body_text, line_text};

use crate::exprs::{write_behind, write_name};
use crate::names::Names;
use crate::texts::{keyword_text, kind_text};
use crate::words::{write_literal, write_number};
use re_terms::{Body, Decl, Expr, Kind, Word};
use std::alloc::AllocError;

/// Writes a kind, and the colon before it.
fn write_kind(text: &mut Vec<u8>, kind: Kind) -> Result<(), AllocError>
    ensures { OnOk result (text.new.items ≡ text.old.items ++ codes ": " ++ kind_text kind) }
{
    text.extend_from_slice(b": ")?;
    text.extend_from_slice(kind_text(kind))
}

/// Writes a kind, and the word at the start.
fn write_start(
    text: &mut Vec<u8>,
    names: &Names<'_>,
    kind: Kind,
    start: Word,
) -> Result<(), AllocError>
    ensures { OnOk result (text.new.items ≡ text.old.items ++ start_text names.now kind start) }
{
    write_kind(text, kind)?;
    text.extend_from_slice(b" = ")?;
    write_literal(text, names, start)
}

/// Writes the region that a var or a fold lies in.
fn write_region(text: &mut Vec<u8>, region: u8) -> Result<(), AllocError>
    ensures { OnOk result (text.new.items ≡ text.old.items ++ codes " in " ++ decimal region) }
{
    text.extend_from_slice(b" in ")?;
    write_number(text, region)
}

/// Writes an event that comes when a word changes.
fn write_changed(text: &mut Vec<u8>, names: &Names<'_>, of: u16) -> Result<(), AllocError>
    ensures { OnOk result (text.new.items ≡ text.old.items ++ codes " = changed(" ++ name_text names.now of ++ codes ")") }
{
    write_name(text, names, b" = changed(", of)?;
    text.extend_from_slice(b")")
}

/// Writes an event that is made of another one by an expression.
fn write_made(
    text: &mut Vec<u8>,
    names: &Names<'_>,
    front: &[u8],
    source: u16,
    expr: &Expr,
) -> Result<(), AllocError>
    ensures { OnOk result (text.new.items ≡ text.old.items ++ front.now ++ name_text names.now source ++ codes ", " ++ expr_text names.now expr.now ++ codes ")") }
{
    write_name(text, names, front, source)?;
    write_behind(text, names, b", ", expr)?;
    text.extend_from_slice(b")")
}

/// Writes an event that comes with either of two others.
fn write_either(
    text: &mut Vec<u8>,
    names: &Names<'_>,
    left: u16,
    right: u16,
) -> Result<(), AllocError>
    ensures { OnOk result (text.new.items ≡ text.old.items ++ codes " = either(" ++ name_text names.now left ++ codes ", " ++ name_text names.now right ++ codes ")") }
{
    write_name(text, names, b" = either(", left)?;
    write_name(text, names, b", ", right)?;
    text.extend_from_slice(b")")
}

/// Writes what stands behind a declaration's name.
fn write_body(text: &mut Vec<u8>, names: &Names<'_>, body: &Body) -> Result<(), AllocError>
    ensures { OnOk result (text.new.items ≡ text.old.items ++ body_text names.now body.now) }
{
    match body {
        Body::Device | Body::Symbol | Body::Counter => Ok(()),
        Body::Event { kind } | Body::Set { kind } => write_kind(text, *kind),
        Body::Var {
            kind,
            start,
            region,
        } => {
            write_start(text, names, *kind, *start)?;
            write_region(text, *region)
        }
        Body::Register { kind, start } => write_start(text, names, *kind, *start),
        Body::Signal { expr, .. } => write_behind(text, names, b" = ", expr),
        Body::Changed { of } => write_changed(text, names, *of),
        Body::Map { source, expr, .. } => write_made(text, names, b" = map(", *source, expr),
        Body::Filter { source, expr } => write_made(text, names, b" = filter(", *source, expr),
        Body::Either { left, right } => write_either(text, names, *left, *right),
        Body::Fold {
            kind,
            start,
            source,
            expr,
            region,
        } => {
            write_start(text, names, *kind, *start)?;
            write_name(text, names, b" on ", *source)?;
            write_behind(text, names, b" do ", expr)?;
            write_region(text, *region)
        }
    }
}

/// Writes a declaration's line.
pub fn write_line(text: &mut Vec<u8>, names: &Names<'_>, decl: &Decl) -> Result<(), AllocError>
    ensures { OnOk result (text.new.items ≡ text.old.items ++ line_text names.now decl.now) }
{
    text.extend_from_slice(keyword_text(&decl.body))?;
    text.extend_from_slice(b" ")?;
    text.extend_from_slice(decl.name.as_slice())?;
    write_body(text, names, &decl.body)?;
    text.extend_from_slice(b";\n")
}
