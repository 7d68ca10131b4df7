//! Scripts of builder calls on two messages, line by line.
ghost use Rattle.std.specs.Prelude.{◌≡◌, ◌≤◌, length};
ghost use Rattle.capnp_copy_arenas.specs.Memory.{AllZero};

use crate::calls::call;
use crate::layouts::{exhaust, fill, is_laid, lay, stands, words_in_use};
use crate::line::Line;
use crate::outcomes::{Answer, Stop, is_answer};
use crate::settings::Settings;
use crate::sources::segments_of;
use crate::stock::Stock;
use crate::values::has_tree;
use capnp_copy_arenas::allocator::Allocator;
use capnp_copy_arenas::arena::{BuilderArena, Memory};
use capnp_copy_arenas::segments::BuilderArenaImpl;
use capnp_message_allocators::growth::AllocationStrategy;
use capnp_message_allocators::scratch::ScratchSpaceHeapAllocator;
use capnp_wire_objects::arena::{ReaderArena, ReaderArenaImpl};
use capnp_wire_objects::place::{ROOT, has_words};
use std::alloc::Global;

/// Returns the sizes of segments that a script gives for a message, if it gives them.
fn sizes_told(alloc: Global, lines: &[&str], message: u64) -> Result<Option<Vec<u32>>, Stop> {
    for text in lines {
        let mut line = Line::new(text);
        if line.word()? != "5" || line.number()? != message {
            continue;
        }
        let mut sizes = Vec::new(alloc);
        for _ in 0..line.index()? {
            sizes.push(line.short()?)?;
        }
        return Ok(Some(sizes));
    }
    Ok(None)
}

/// Makes the allocators of both messages.
fn stocks(alloc: Global, lines: &[&str]) -> Result<(Stock, Stock), Stop> {
    let Some(first) = lines.first() else {
        return Err(Stop::Shape);
    };
    let mut line = Line::new(first);
    let _begins = line.number()?;
    let (one, other) = (line.short()?, line.short()?);
    Ok((
        Stock::new(alloc, one, sizes_told(alloc, lines, 0)?),
        Stock::new(alloc, other, sizes_told(alloc, lines, 1)?),
    ))
}

/// Makes the word of a message's root pointer, if there is none yet.
fn begin<A: BuilderArena>(memory: &mut Memory<A>) -> Result<(), Stop>
    ensures { A.books memory.new.arena ≡ A.books memory.old.arena }
{
    if has_words(&memory.arena, ROOT, 1) {
        return Ok(());
    }
    memory.arena.allocate_anywhere(1)?;
    Ok(())
}

/// Does what a line says of a message beside another. Returns whether the message is as it should
/// be.
fn act<A: BuilderArena, B: ReaderArena>(
    alloc: Global,
    memory: &mut Memory<A>,
    other: &B,
    settings: &mut Settings,
    verb: u64,
    line: &mut Line<'_>,
) -> Answer
    ensures { A.books memory.new.arena ≡ A.books memory.old.arena }
{
    match verb {
        2 => call(alloc, memory, other, settings, line),
        6 => {
            lay(memory, &line.segments(alloc)?)?;
            Ok(None)
        }
        7 if is_laid(&memory.arena, &line.segments(alloc)?) => Ok(None),
        10 => {
            fill(memory);
            Ok(None)
        }
        13 if stands(&memory.arena, &line.segments(alloc)?) => Ok(None),
        14 => {
            settings.kept = segments_of(alloc, &memory.arena)?;
            Ok(None)
        }
        15 if is_laid(&memory.arena, &settings.kept) => Ok(None),
        16 => {
            exhaust(memory);
            Ok(None)
        }
        11 if words_in_use(&memory.arena) == line.number()? => Ok(None),
        _ => Err(Stop::Shape),
    }
}

/// Returns whether a message has the tree that a line gives in a frame of one segment.
fn ends_so<A: ReaderArena>(alloc: Global, arena: &A, line: &mut Line<'_>) -> Result<bool, Stop> {
    let frame = line.hex(alloc)?;
    let Some(bytes) = frame.get(8..) else {
        return Err(Stop::Shape);
    };
    let segments: &[&[u8]] = &[bytes];
    let wanted = ReaderArenaImpl::new(segments, 64);
    has_tree(alloc, arena, &wanted)
}

/// Does what a line says of the calls that follow, or of both messages. Returns whether they are as
/// they should be.
fn set<A: BuilderArena, B: BuilderArena>(
    alloc: Global,
    first: &mut Memory<A>,
    second: &mut Memory<B>,
    settings: &mut Settings,
    verb: u64,
    line: &mut Line<'_>,
) -> Result<bool, Stop>
    ensures first { A.books first.new.arena ≡ A.books first.old.arena }
    ensures second { B.books second.new.arena ≡ B.books second.old.arena }
{
    match verb {
        0 | 5 | 17 => {}
        1 => return Ok(ends_so(alloc, &first.arena, line)? && ends_so(alloc, &second.arena, line)?),
        3 => settings.set_literals(alloc, line)?,
        4 => settings.literals = line.segments(alloc)?,
        8 => settings.set_limits(line)?,
        9 => return settings.took(line),
        12 => settings.set_default(alloc, line)?,
        _ => return Err(Stop::Shape),
    }
    Ok(true)
}

/// Returns the answer of a line's call; if the line makes no call, whether the message is as it
/// should be.
fn step<A: BuilderArena, B: BuilderArena>(
    alloc: Global,
    first: &mut Memory<A>,
    second: &mut Memory<B>,
    settings: &mut Settings,
    text: &str,
) -> Answer
    ensures first { A.books first.new.arena ≡ A.books first.old.arena }
    ensures second { B.books second.new.arena ≡ B.books second.old.arena }
{
    let mut line = Line::new(text);
    let verb = line.number()?;
    if verb == 1 || verb == 2 {
        begin(first)?;
        begin(second)?;
    }
    match verb {
        2 | 6 | 7 | 10 | 11 | 13..=16 => match line.number()? {
            0 => act(alloc, first, &second.arena, settings, verb, &mut line),
            1 => act(alloc, second, &first.arena, settings, verb, &mut line),
            _ => Err(Stop::Shape),
        },
        _ => {
            if set(alloc, first, second, settings, verb, &mut line)? {
                Ok(None)
            } else {
                Err(Stop::Shape)
            }
        }
    }
}

/// Runs the lines of a script. Returns the number of the first line that differs, and its answer.
fn play<A: BuilderArena, B: BuilderArena>(
    alloc: Global,
    first: &mut Memory<A>,
    second: &mut Memory<B>,
    lines: &[&str],
) -> Option<(usize, Answer)>
    ensures first { A.books first.new.arena ≡ A.books first.old.arena }
    ensures second { B.books second.new.arena ≡ B.books second.old.arena }
{
    let mut settings = Settings::new(alloc);
    let mut last: Answer = Ok(None);
    for number in 0..lines.len() {
        let text = lines.get(number).copied().unwrap_or("");
        if text.starts_with("#") {
            continue;
        }
        let before = last;
        let holds = match text.strip_prefix("= ") {
            Some(written) => {
                last = Ok(None);
                is_answer(written, before)
            }
            None => {
                last = step(alloc, first, second, &mut settings, text);
                before.is_ok()
            }
        };
        if !holds {
            return Some((number, before));
        }
    }
    match last {
        Ok(_) => None,
        Err(_) => Some((lines.len(), last)),
    }
}

/// Returns a lent region that a script gives for the first message, and the words of each segment
/// after it.
fn region_told(alloc: Global, lines: &[&str]) -> Result<Option<(Vec<u8>, u32)>, Stop> {
    for text in lines {
        let mut line = Line::new(text);
        if line.word()? != "17" {
            continue;
        }
        let count = line.short()?;
        let mut region = Vec::new(alloc);
        region.resize(count as usize, 0xee)?;
        return Ok(Some((region, line.short()?)));
    }
    Ok(None)
}

/// Runs a script on two messages of these allocators. Returns the number of the first line that
/// differs, and its answer.
fn run_over<A: Allocator, B: Allocator>(
    alloc: Global,
    one: &mut A,
    other: &mut B,
    lines: &[&str],
) -> Option<(usize, Answer)>
    requires first { length (A.loans one.old) ≤ 1 }
    requires second { length (B.loans other.old) ≤ 1 }
    ensures loans { A.loans one.new ≡ A.loans one.old }
    ensures place { A.place one.new ≡ A.place one.old }
{
    let mut first = Memory {
        arena: BuilderArenaImpl::new(alloc, one),
    };
    let mut second = Memory {
        arena: BuilderArenaImpl::new(alloc, other),
    };
    let difference = play(alloc, &mut first, &mut second, lines);
    let Memory { arena } = first;
    let _one = arena.into_allocator();
    let Memory { arena } = second;
    let _other = arena.into_allocator();
    difference
}

/// Runs a script whose first message begins in a lent region, and continues in segments of n words.
/// The region comes back all zeros.
fn run_in(
    alloc: Global,
    region: &mut [u8],
    words: u32,
    other: &mut Stock,
    lines: &[&str],
) -> Option<(usize, Answer)>
    ensures { AllZero region.new }
{
    let mut scratch = ScratchSpaceHeapAllocator::new(alloc, region);
    scratch.allocation_strategy(AllocationStrategy::FixedSize);
    scratch.second_segment_words(words);
    run_over(alloc, &mut scratch, other, lines)
}

/// Runs a script on two messages of its own. Returns the number of the first line that differs, and
/// its answer.
pub fn run(alloc: Global, lines: &[&str]) -> Result<Option<(usize, Answer)>, Stop> {
    let (mut one, mut other) = stocks(alloc, lines)?;
    let Some((mut region, words)) = region_told(alloc, lines)? else {
        return Ok(run_over(alloc, &mut one, &mut other, lines));
    };
    let difference = run_in(alloc, &mut region, words, &mut other, lines);
    if difference.is_none() && region.iter().any(|byte| *byte != 0) {
        return Ok(Some((lines.len(), Err(Stop::Shape))));
    }
    Ok(difference)
}
