//! Packets from their fragments.
use crate::arrays::Arrays;
use crate::case::Case;
use crate::keys::{later_key, parse_key, push_key, push_loss};
use crate::outcomes::{UNUSED, added_text, written_text};
use crate::report::Report;
use crate::text::{Words, yes};
use anyhow::{Context, Result, bail, ensure};
use ip_base::IpNumber;
use ip_defragmenter::{
    Defragmenter, DefragmenterCounts, FragmentKey, PacketMemory, Settings, Slot, SlotTable,
    defragment, write_packet,
};
use ip_lists::Table;
use std::alloc::Global;

/// Returns so many memories.
fn memories(alloc: Global, count: usize) -> Result<Vec<PacketMemory>> {
    let mut memories = Vec::new(alloc);
    for _ in 0..count {
        memories.push(PacketMemory::new())?;
    }
    Ok(memories)
}

/// Runs a case: `defragmenter SLOTS PLACES AGES CHAINS SEED SEED`, with so many slots, places in their table, links of ages and
/// links of chains. What is to be cleared has other numbers before.
pub(crate) fn run(case: &Case<'_>, words: &mut Words<'_>, report: &mut Report<'_>) -> Result<()> {
    let alloc = case.alloc;
    let count = words.number()?;
    let places = words.number()?;
    let mut ages = Arrays::filled(alloc, words.number()?, 7, 1)?;
    let mut chains = Arrays::filled(alloc, words.number()?, 0, 5)?;
    let seed = [words.number()?, words.number()?];
    words.end()?;
    let mut slots = vec![in alloc; Slot::free(); count]?;
    let mut memories = memories(alloc, count)?;
    let mut counts = DefragmenterCounts {
        outcomes: [9; 14],
        losses: [9; 3],
    };
    let mut defragmenter = Defragmenter {
        slots: SlotTable {
            slots: slots.as_mut_slice(),
            table: Table {
                places,
                ages: ages.links(),
                chains: chains.links(),
            },
        },
        memories: memories.as_mut_slice(),
        counts: &mut counts,
        settings: Settings::new(seed),
    };
    for line in case.steps {
        let mut words = Words::new(line.text);
        let answer = step(case, &mut defragmenter, &mut words);
        report.add(case, line, words, answer)?;
    }
    Ok(())
}

/// Does a step. Returns its answer.
fn step(
    case: &Case<'_>,
    defragmenter: &mut Defragmenter<'_>,
    words: &mut Words<'_>,
) -> Result<String> {
    let alloc = case.alloc;
    let answer = match words.word()? {
        "clear" => yes(defragmenter.clear()),
        "clear-slots" => yes(defragmenter.slots.clear()),
        "reset" => reset(defragmenter, words.number()?)?,
        "counts" => return counts(alloc, &defragmenter.counts.outcomes),
        "losses" => return counts(alloc, &defragmenter.counts.losses),
        "add" => return add(case, defragmenter, words),
        "defragment" => return add_uncounted(case, defragmenter, words),
        "write" => return write(alloc, defragmenter.memories, words),
        "write-packet" => return write_a_packet(case, words),
        "place" => return place(alloc, defragmenter, words),
        "place-each" => return place_each(alloc, defragmenter, words),
        "give-up" => return give_up(alloc, &mut defragmenter.slots, words),
        "pending" => return pending(alloc, &defragmenter.slots, words),
        "bucket" => return bucket(alloc, &defragmenter.slots, words),
        other => bail!("there is no step '{other}'"),
    };
    Ok(String::from_str(alloc, answer)?)
}

/// Forgets whatever a memory was.
fn reset(defragmenter: &mut Defragmenter<'_>, index: usize) -> Result<&'static str> {
    let memory = defragmenter.memories.get_mut(index);
    memory.context("no memory has this index")?.reset();
    Ok("")
}

/// Returns counts, one after another.
fn counts(alloc: Global, counts: &[u64]) -> Result<String> {
    let mut text = String::from_str(alloc, "counts")?;
    for count in counts {
        write!(text, " {count}")?;
    }
    Ok(text)
}

/// Adds a packet: `add CONTEXT TIME BYTES`.
fn add(
    case: &Case<'_>,
    defragmenter: &mut Defragmenter<'_>,
    words: &mut Words<'_>,
) -> Result<String> {
    let context = words.number()?;
    let time = words.number()?;
    let packet = case.names.bytes(words)?;
    let slots = defragmenter.slots.slots.len();
    ensure!(
        slots == defragmenter.memories.len(),
        "a memory for each slot"
    );
    let added = defragmenter.add(context, time, &packet);
    added_text(case.alloc, &added)
}

/// Adds a packet without counting it: `defragment CONTEXT TIME BYTES`.
fn add_uncounted(
    case: &Case<'_>,
    defragmenter: &mut Defragmenter<'_>,
    words: &mut Words<'_>,
) -> Result<String> {
    let context = words.number()?;
    let time = words.number()?;
    let packet = case.names.bytes(words)?;
    let slots = defragmenter.slots.slots.len();
    ensure!(
        slots == defragmenter.memories.len(),
        "a memory for each slot"
    );
    let settings = defragmenter.settings;
    let added = defragment(
        &mut defragmenter.slots,
        defragmenter.memories,
        &settings,
        context,
        time,
        &packet,
    );
    added_text(case.alloc, &added)
}

/// Writes the packet of a memory to a buffer: `write INDEX ROOM`.
fn write(alloc: Global, memories: &[PacketMemory], words: &mut Words<'_>) -> Result<String> {
    let memory = memories.get(words.number::<usize>()?);
    let memory = memory.context("no memory has this index")?;
    let mut buffer = vec![in alloc; UNUSED; words.number()?]?;
    let written = memory.write(buffer.as_mut_slice());
    written_text(alloc, written, &buffer)
}

/// Writes a packet to a buffer: `write-packet ROOM LINK NUMBER CONGESTED HEADERS / PAYLOAD`.
fn write_a_packet(case: &Case<'_>, words: &mut Words<'_>) -> Result<String> {
    let mut buffer = vec![in case.alloc; UNUSED; words.number()?]?;
    let link = words.number()?;
    let number = IpNumber(words.number()?);
    let congested = words.yes()?;
    let headers = case.names.bytes(words)?;
    let payload = case.names.bytes(words)?;
    let out = buffer.as_mut_slice();
    let written = write_packet(&headers, link, number, congested, &payload, out);
    written_text(case.alloc, written.map(Some), &buffer)
}

/// Returns the slot of a packet: `place CONTEXT TIME KEY`.
fn place(
    alloc: Global,
    defragmenter: &mut Defragmenter<'_>,
    words: &mut Words<'_>,
) -> Result<String> {
    let context = words.number()?;
    let time = words.number()?;
    let key = parse_key(words)?;
    place_text(alloc, defragmenter, context, time, key)
}

/// Returns the slot of a packet, when its first fragment arrived, and what was given up for it.
fn place_text(
    alloc: Global,
    defragmenter: &mut Defragmenter<'_>,
    context: u32,
    time: u64,
    key: FragmentKey,
) -> Result<String> {
    let settings = defragmenter.settings;
    let Some(placed) = defragmenter.slots.place(&settings, context, key, time) else {
        return Ok(String::from_str(alloc, "none")?);
    };
    let is_new = if placed.is_known { "known" } else { "new" };
    let mut text = format!(in alloc; "slot {} {is_new} since {}", placed.index, placed.since)?;
    push_loss(&mut text, &placed.lost)?;
    Ok(text)
}

/// Returns the slots of packets whose identifications follow one another, which are to follow one another, too:
/// `place-each COUNT CONTEXT TIME KEY`. Returns the answer for the first one.
fn place_each(
    alloc: Global,
    defragmenter: &mut Defragmenter<'_>,
    words: &mut Words<'_>,
) -> Result<String> {
    let count = words.number()?;
    let context = words.number()?;
    let time = words.number()?;
    let key = parse_key(words)?;
    let settings = defragmenter.settings;
    let mut first = None;
    for number in 0..count {
        let key = later_key(key, number);
        let placed = defragmenter.slots.place(&settings, context, key, time);
        let placed = placed.context("no slot")?;
        let index = placed.index.wrapping_sub(number as usize);
        let (wanted, is_known) = *first.get_or_insert((index, placed.is_known));
        ensure!(
            index == wanted && placed.is_known == is_known && placed.lost.is_none(),
            "{placed:?} for packet {number}"
        );
    }
    let (index, is_known) = first.context("no packets")?;
    let is_new = if is_known { "known" } else { "new" };
    Ok(format!(in alloc; "slots from {index} on {is_new}")?)
}

/// Gives up the packet of a slot if its time is over: `give-up INDEX TIMEOUT TIME`.
fn give_up(alloc: Global, slots: &mut SlotTable<'_>, words: &mut Words<'_>) -> Result<String> {
    let index = words.number()?;
    let timeout = words.number()?;
    let time = words.number()?;
    let mut text = String::from_str(alloc, "done")?;
    push_loss(&mut text, &slots.give_up(index, timeout, time))?;
    Ok(text)
}

/// Returns the packet of a slot, and when its first fragment arrived: `pending INDEX`.
fn pending(alloc: Global, slots: &SlotTable<'_>, words: &mut Words<'_>) -> Result<String> {
    let slot = slots.slots.get(words.number::<usize>()?);
    match slot.context("no slot has this index")?.pending() {
        Some(packet) => {
            let mut text = format!(in alloc; "{} since {} ", packet.context, packet.since)?;
            push_key(&mut text, &packet.key)?;
            Ok(text)
        }
        None => Ok(String::from_str(alloc, "none")?),
    }
}

/// Returns the first slot of a bucket: `bucket BUCKET`.
fn bucket(alloc: Global, slots: &SlotTable<'_>, words: &mut Words<'_>) -> Result<String> {
    let bucket = words.number()?;
    let mut text = String::from_str(alloc, "slots")?;
    for place in slots.table.chain(bucket) {
        write!(text, " {place}")?;
    }
    Ok(text)
}
