//! Runs of the top call over a world in memory.
use re_fakes::{Fail, Files, MemoryWorld};
use re_outside::{Bytes, Gate, Step};
use re_terms::Seq;
use re_tool::{Status, tool};
use std::alloc::{AllocError, Global};
use std::sync::Wait;
use std::thread::Threads;

/// A gate that does nothing.
pub struct OpenGate;

impl Gate for OpenGate {
    fn evaluated(&self, _pass: u32, _turn: u32, _count: u32) {}

    fn between(&self, _pass: u32, _turn: u32) {}

    fn after(&self, _pass: u32, _turn: u32) {}
}

/// An input, and what `run` says of it over files that hold nothing.
pub struct Row {
    pub input: &'static [u8],
    pub said: &'static [u8],
    pub status: Status,
}

/// How a run ended: its status, what was said, and how many calls failed.
#[derive(Drop)]
pub struct Ended {
    pub status: Status,
    pub said: Vec<u8>,
    pub failed: usize,
}

impl Ended {
    /// Whether it ended so and said this.
    pub fn is(&self, status: Status, said: &[u8]) -> bool {
        self.status == status && self.said.as_slice() == said
    }
}

/// All that was said in these steps.
pub fn said_in(alloc: Global, steps: &[Step]) -> Result<Vec<u8>, AllocError> {
    let mut all = Vec::new(alloc);
    for step in steps {
        if let Step::Say { bytes } = step {
            all.extend_from_slice(bytes.as_slice())?;
        }
    }
    Ok(all)
}

/// How many of these steps are those of calls that failed.
pub fn failed_in(steps: &[Step]) -> usize {
    let mut count: usize = 0;
    for step in steps {
        if let Step::Fail { .. } = step {
            count = count.saturating_add(1);
        }
    }
    count
}

/// Files that hold nothing.
pub fn no_files(alloc: Global) -> Files {
    Files {
        list: Seq::new(alloc),
    }
}

/// The files 0 and 1 of the first device, then those of the next.
pub fn files_of(alloc: Global, files: &[&[u8]]) -> Result<Files, AllocError> {
    let mut list = Seq::new(alloc);
    for bytes in files {
        list.push(Bytes::from_slice(alloc, *bytes)?)?;
    }
    Ok(Files { list })
}

/// The words of a command line.
pub fn words_of(alloc: Global, words: &[&str]) -> Result<Vec<String>, AllocError> {
    let mut list = Vec::new(alloc);
    for word in words {
        list.push(String::from_str(alloc, *word)?)?;
    }
    Ok(list)
}

/// The world of a run over this input and these files, where these calls fail.
pub fn world_of(
    alloc: Global,
    input: &[u8],
    files: Files,
    fails: &[Fail],
) -> Result<MemoryWorld, AllocError> {
    let mut failing = Seq::new(alloc);
    for fail in fails {
        failing.push(*fail)?;
    }
    MemoryWorld::new(alloc, input, files, failing)
}

/// A world after the top call with these words over it, and the status.
pub fn called(
    rt: &(impl Threads + Wait + Sync),
    alloc: Global,
    words: &[&str],
    mut world: MemoryWorld,
) -> Result<(Status, MemoryWorld), AllocError> {
    let words = words_of(alloc, words)?;
    let status = tool(rt, alloc, &words, &mut world, &OpenGate);
    Ok((status, world))
}

/// How the top call with these words ends over a world.
pub fn ending(
    rt: &(impl Threads + Wait + Sync),
    alloc: Global,
    words: &[&str],
    world: MemoryWorld,
) -> Result<Ended, AllocError> {
    let (status, world) = called(rt, alloc, words, world)?;
    let steps = world.trace().as_slice();
    Ok(Ended {
        status,
        said: said_in(alloc, steps)?,
        failed: failed_in(steps),
    })
}

/// How the top call with this word ends over this input and files that hold nothing.
pub fn job(
    rt: &(impl Threads + Wait + Sync),
    alloc: Global,
    word: &str,
    input: &[u8],
) -> Result<Ended, AllocError> {
    let world = world_of(alloc, input, no_files(alloc), &[])?;
    ending(rt, alloc, &[word], world)
}

/// How a run over these files ends.
pub fn run_over(
    rt: &(impl Threads + Wait + Sync),
    alloc: Global,
    input: &[u8],
    files: Files,
) -> Result<Ended, AllocError> {
    let world = world_of(alloc, input, files, &[])?;
    ending(rt, alloc, &["run"], world)
}

/// The place of the first row that isn't answered as it says.
pub fn first_wrong(
    rt: &(impl Threads + Wait + Sync),
    alloc: Global,
    rows: &[Row],
) -> Result<Option<usize>, AllocError> {
    for (place, row) in rows.iter().enumerate() {
        if !job(rt, alloc, "run", row.input)?.is(row.status, row.said) {
            return Ok(Some(place));
        }
    }
    Ok(None)
}
