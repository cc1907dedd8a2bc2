//! Lists and tables through arrays.
use crate::arrays::Arrays;
use crate::case::Case;
use crate::report::Report;
use crate::text::{Words, yes};
use anyhow::{Result, bail, ensure};
use ip_lists::{Links, Members, Table};
use std::alloc::{AllocError, Global};

/// Appends numbers, each before a space.
fn push_numbers(text: &mut String, numbers: &[u32]) -> Result<(), AllocError> {
    for number in numbers {
        write!(text, "{number} ")?;
    }
    Ok(())
}

/// Returns the links of all places: `NEXT .. / PREVIOUS ..`.
fn links_text(alloc: Global, links: &Links<'_>) -> Result<String, AllocError> {
    let mut text = String::new(alloc);
    push_numbers(&mut text, links.next)?;
    text.push_str("/")?;
    for number in links.previous.iter() {
        write!(text, " {number}")?;
    }
    Ok(text)
}

/// Returns the members of a list, one after another.
fn members_text(alloc: Global, members: Members<'_>) -> Result<String, AllocError> {
    let mut text = String::from_str(alloc, "list")?;
    for member in members {
        write!(text, " {member}")?;
    }
    Ok(text)
}

/// Returns the members of the list of a head, found one from another.
fn walk_text(alloc: Global, links: &Links<'_>, head: u32) -> Result<String, AllocError> {
    let mut text = String::from_str(alloc, "list")?;
    let mut place = head;
    for _ in 0..links.next.len() {
        match links.after(head, place) {
            Some(next) => place = next,
            None => break,
        }
        write!(text, " {place}")?;
    }
    Ok(text)
}

/// Returns a place, if there is one.
fn place_text(alloc: Global, place: Option<u32>) -> Result<String, AllocError> {
    match place {
        Some(place) => format!(in alloc; "{place}"),
        None => String::from_str(alloc, "none"),
    }
}

/// Takes all places out of their lists.
fn clear(links: &mut Links<'_>) -> Result<()> {
    let len = links.next.len();
    ensure!(
        links.previous.len() == len && len < 65536,
        "arrays of different lengths"
    );
    links.clear();
    Ok(())
}

/// Does a step of a case `links`. Returns its answer.
fn links_step(alloc: Global, links: &mut Links<'_>, words: &mut Words<'_>) -> Result<String> {
    let holds = match words.word()? {
        "clear" => {
            clear(links)?;
            return Ok(links_text(alloc, links)?);
        }
        "links" => return Ok(links_text(alloc, links)?),
        "members" => return Ok(members_text(alloc, links.members(words.number()?))?),
        "walk" => return Ok(walk_text(alloc, links, words.number()?)?),
        "first" => return Ok(place_text(alloc, links.first(words.number()?))?),
        "is-alone" => links.is_alone(words.number()?),
        "push-back" => {
            let head = words.number()?;
            links.push_back(head, words.number()?)
        }
        "remove" => links.remove(words.number()?),
        other => bail!("there is no step '{other}'"),
    };
    Ok(String::from_str(alloc, yes(holds))?)
}

/// Runs a case: `links NEXT .. / PREVIOUS ..`, with these arrays.
pub(crate) fn run_links(
    case: &Case<'_>,
    words: &mut Words<'_>,
    report: &mut Report<'_>,
) -> Result<()> {
    let mut arrays = Arrays::parse(case.alloc, words)?;
    words.end()?;
    let mut links = arrays.links();
    for line in case.steps {
        let mut words = Words::new(line.text);
        let answer = links_step(case.alloc, &mut links, &mut words);
        report.add(case, line, words, answer)?;
    }
    Ok(())
}

/// Frees all places of a table.
fn clear_table(table: &mut Table<'_>) -> Result<()> {
    let (ages, chains) = (table.ages.next.len(), table.chains.next.len());
    let places = table.places as usize;
    ensure!(places + 1 < ages && ages < 65536, "too few links of ages");
    ensure!(
        places <= chains && chains < 65536,
        "too few links of chains"
    );
    ensure!(
        table.ages.previous.len() == ages,
        "ages of different lengths"
    );
    ensure!(
        table.chains.previous.len() == chains,
        "chains of different lengths"
    );
    table.clear();
    Ok(())
}

/// Takes a place. Returns which one, and whether it was in use.
fn take(alloc: Global, table: &mut Table<'_>, bucket: u32) -> Result<String, AllocError> {
    match table.take(bucket) {
        Some(taken) => {
            let was = if taken.was_used { "used" } else { "free" };
            format!(in alloc; "{} {was}", taken.place)
        }
        None => String::from_str(alloc, "none"),
    }
}

/// Does a step of a case `table`. Returns its answer.
fn table_step(alloc: Global, table: &mut Table<'_>, words: &mut Words<'_>) -> Result<String> {
    let answer = match words.word()? {
        "clear" => {
            clear_table(table)?;
            ""
        }
        "ages" => return Ok(links_text(alloc, &table.ages)?),
        "chains" => return Ok(links_text(alloc, &table.chains)?),
        "chain" => return Ok(members_text(alloc, table.chain(words.number()?))?),
        "take" => return Ok(take(alloc, table, words.number()?)?),
        "release" => yes(table.release(words.number()?)),
        "renew" => {
            let place = words.number()?;
            yes(table.renew(place, words.number()?))
        }
        other => bail!("there is no step '{other}'"),
    };
    Ok(String::from_str(alloc, answer)?)
}

/// Runs a case: `table PLACES / NEXT .. / PREVIOUS .. / NEXT .. / PREVIOUS ..`, with these arrays.
pub(crate) fn run_table(
    case: &Case<'_>,
    words: &mut Words<'_>,
    report: &mut Report<'_>,
) -> Result<()> {
    let places = words.number()?;
    ensure!(words.next() == Some("/"), "a '/' is expected");
    let mut ages = Arrays::parse(case.alloc, words)?;
    let mut chains = Arrays::parse(case.alloc, words)?;
    words.end()?;
    let mut table = Table {
        places,
        ages: ages.links(),
        chains: chains.links(),
    };
    for line in case.steps {
        let mut words = Words::new(line.text);
        let answer = table_step(case.alloc, &mut table, &mut words);
        report.add(case, line, words, answer)?;
    }
    Ok(())
}
