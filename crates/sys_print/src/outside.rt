ghost use Rattle.std.specs.Prelude.{◌≡◌, true, slice_set, IfOk};
ghost use Rattle.system_model.specs.World as meaning;
ghost use Rattle.sys_print.specs.Worlds.{view_link, view_world};
ghost use Rattle.sys_print.specs.Marks.{AreMarks};

use std::alloc::{AllocError, Global};

/// An open file: its fid, and where in it the next byte goes.
#[derive(Clone, Copy)]
pub struct File {
    pub fid: u32,
    pub offset: u64,
}

/// The open files: so far the output.
#[derive(Clone, Copy)]
pub struct Files {
    pub output: File,
}

/// A link to a server: the tags of the requests that wait for their replies.
#[derive(Drop)]
pub struct Link {
    pub waiting: Vec<u64>,
}

/// The links: so far link 1, to the console.
#[derive(Drop)]
pub struct Links {
    pub console: Link,
}

/// What all processes share of the outside.
#[derive(Drop)]
pub struct World {
    pub files: Files,
    pub links: Links,
}

/// When a program begins: the output is fid 2 of the console, and nothing was asked.
pub fn opening_world(alloc: Global) -> World
    ensures { view_world result ≡ meaning.opening_world }
{
    let waiting = Vec::new(alloc);
    World {
        files: Files {
            output: File { fid: 2, offset: 0 },
        },
        links: Links {
            console: Link { waiting },
        },
    }
}

// Marks a tag as taken, where it is one of those that are marked.
fn mark(marks: &mut Vec<bool>, tag: u64)
    ensures { marks.new.items ≡ slice_set marks.old.items tag true }
{
    let place = tag as usize;
    if place < marks.len() {
        marks[place] = true;
    }
}

// Of each of the first so many tags whether a request waits under it.
fn marks_of(alloc: Global, waiting: &[u64]) -> Result<Vec<bool>, AllocError>
    ensures { IfOk result (λ v. AreMarks waiting.now v.items) }
{
    let mut marks = vec![in alloc; false; waiting.len()]?;
    for tag in waiting {
        mark(&mut marks, *tag);
    }
    Ok(marks)
}

/// The smallest tag under which no request waits, found in the time of one look at each.
pub fn free_tag(alloc: Global, link: &Link) -> Result<u64, AllocError>
    ensures { IfOk result (λ tag. tag ≡ meaning.free_tag (view_link link.now)) }
{
    let marks = marks_of(alloc, &link.waiting)?;
    let tries = marks.len();
    for tag in 0..tries {
        if !marks[tag] {
            return Ok(tag as u64);
        }
    }
    Ok(tries as u64)
}

fn without(alloc: Global, n: u64, ms: &[u64]) -> Result<Vec<u64>, AllocError>
    ensures { IfOk result (λ v. v.items ≡ meaning.without n ms.now) }
{
    let mut kept = Vec::new(alloc);
    for m in ms {
        if n != *m {
            kept.push(*m)?;
        }
    }
    Ok(kept)
}

/// The same world once more.
pub fn copy_world(world: &World) -> Result<World, AllocError>
    ensures { IfOk result (λ w. view_world w ≡ view_world world.now) }
{
    let waiting = world.links.console.waiting.clone()?;
    Ok(World {
        files: world.files,
        links: Links {
            console: Link { waiting },
        },
    })
}

/// A request waits on the console's link under this tag.
pub fn begin_wait(tag: u64, world: World) -> Result<World, AllocError>
    ensures { IfOk result (λ w. view_world w ≡ meaning.begin_wait tag (view_world world)) }
{
    let World { files, links } = world;
    let Links { console } = links;
    let Link { mut waiting } = console;
    waiting.insert(0, tag)?;
    Ok(World {
        files,
        links: Links {
            console: Link { waiting },
        },
    })
}

/// A reply is there, and its tag is free again.
pub fn end_wait(alloc: Global, tag: u64, world: &World) -> Result<World, AllocError>
    ensures { IfOk result (λ w. view_world w ≡ meaning.end_wait tag (view_world world.now)) }
{
    let waiting = without(alloc, tag, &world.links.console.waiting)?;
    Ok(World {
        files: world.files,
        links: Links {
            console: Link { waiting },
        },
    })
}

/// So many bytes more were written to the output.
pub fn wrote(count: u32, world: World) -> World
    ensures { view_world result ≡ meaning.wrote count (view_world world) }
{
    let World { files, links } = world;
    let fid = files.output.fid;
    let offset = files.output.offset.saturating_add(u64::from(count));
    World {
        files: Files {
            output: File { fid, offset },
        },
        links,
    }
}
