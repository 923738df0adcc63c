ghost use Rattle.std.specs.Prelude.{◌≡◌, ◌==◌, ℕ, IfOk, OnOk, filter, filter_map, None, ◌++◌, ◌∷◌, [], if◌then◌else◌};
ghost use Rattle.std.specs.List.{list_any, last_or, flat_map};
ghost use Rattle.std.specs.Ordering.{nat_cmp};
ghost use Rattle.std.specs.BTreeSet.{contains};
ghost use Rattle.rb_journal_defs.specs.Body.{is_logged, is_named_in, has_something_to_log};
ghost use Rattle.rb_inject.specs.Body.{logged_of, applied_epoch_in, reflected_of, body_of_assembled};

use rb_base::{
    Change, Changes, Epoch, EpochBody, Items, Mapped, MappedTables, NoMemory, Parts, SiteId, Value,
};
use rb_message_defs::Assembled;
use std::alloc::Global;
use std::collections::BTreeSet;

/// Returns what the injector logs of an assembled epoch, at a site with these tables.
pub(crate) fn body_of(
    alloc: Global,
    site: SiteId,
    tables: &[Mapped],
    assembled: Assembled,
) -> Result<EpochBody, NoMemory>
    ensures { IfOk result (λ body. body ≡ body_of_assembled site tables.now assembled) }
{
    let epoch = assembled.epoch;
    let reflected = reflected_in(site, assembled.parts.as_slice());
    let changes = logged_changes(alloc, site, assembled.parts)?;
    Ok(EpochBody {
        server: site.server_id(),
        epoch,
        reflected,
        tables: named_tables(alloc, tables, &changes)?,
        changes: Items::from_vec(changes),
    })
}

/// Returns whether a body has something to log.
pub(crate) fn has_something(body: &EpochBody) -> bool
    ensures { result ≡ has_something_to_log body.now }
{
    !body.changes.as_slice().is_empty() || body.reflected.is_some()
}

// Returns the reflected epoch of these parts: at the secondary, the last epoch of the primary that
// a change records as applied.
fn reflected_in(site: SiteId, parts: &[Changes]) -> Option<Epoch>
    ensures { result ≡ reflected_of site parts.now }
{
    match site {
        SiteId::A => None,
        SiteId::B => last_applied_in_all(parts),
    }
}

// Returns the last epoch of the primary that a change of these parts records as applied.
fn last_applied_in_all(parts: &[Changes]) -> Option<Epoch>
    ensures { result ≡ last_or None
        (filter_map applied_epoch_in (flat_map (λ part. part) parts.now)) }
{
    let mut applied = None;
    for part in parts {
        applied = last_applied(applied, part.as_slice());
    }
    applied
}

// Returns the last epoch of the primary that one of these changes records as applied, or else
// `before`.
fn last_applied(before: Option<Epoch>, changes: &[Change]) -> Option<Epoch>
    ensures { result ≡ last_or before (filter_map applied_epoch_in changes.now) }
{
    let mut applied = before;
    for change in changes {
        applied = applied_or(applied, change);
    }
    applied
}

// Returns the epoch of the primary that a change records as applied, or else `before`.
fn applied_or(before: Option<Epoch>, change: &Change) -> Option<Epoch>
    ensures { result ≡ last_or before (filter_map applied_epoch_in (change.now ∷ [])) }
{
    if change.table != 0 || change.key != 1 {
        return before;
    }
    let Some(row) = &change.after else {
        return before;
    };
    match row.values.as_slice().get(1) {
        Some(Value::Num(epoch)) => Some(Epoch(*epoch)),
        _ => before,
    }
}
// Returns the changes of these parts that are logged, bucket 0 first.
fn logged_changes(alloc: Global, site: SiteId, parts: Parts) -> Result<Vec<Change>, NoMemory>
    ensures { IfOk result (λ changes. changes.items ≡ logged_of site parts) }
{
    let mut changes = Vec::new(alloc);
    for part in parts.into_vec() {
        append_logged(&mut changes, site, part)?;
    }
    Ok(changes)
}

// Appends the changes of a part that are logged.
fn append_logged(changes: &mut Vec<Change>, site: SiteId, part: Changes) -> Result<(), NoMemory>
    ensures { OnOk result (changes.new.items ≡ changes.old.items ++ filter (is_logged site) part) }
{
    for change in part.into_vec() {
        if change.table != 0 && change.author == site.server_id() {
            changes.push(change)?;
        }
    }
    Ok(())
}

// Returns those of these tables that changes name.
fn named_tables(
    alloc: Global,
    tables: &[Mapped],
    changes: &[Change],
) -> Result<MappedTables, NoMemory>
    ensures { IfOk result (λ named. named ≡ filter (is_named_in changes.now) tables.now) }
{
    let numbers = named_numbers(alloc, changes)?;
    let mut named = MappedTables::new(alloc);
    for table in tables {
        append_named(alloc, &mut named, &numbers, table)?;
    }
    Ok(named)
}

// Appends a table if its number is one of these.
fn append_named(
    alloc: Global,
    named: &mut MappedTables,
    numbers: &BTreeSet<u16>,
    table: &Mapped,
) -> Result<(), NoMemory>
    ensures { OnOk result (named.new ≡ named.old
        ++ (if contains nat_cmp numbers.now table.now.id then table.now ∷ [] else [])) }
{
    if !numbers.contains(&table.id) {
        return Ok(());
    }
    named.push(table.copy(alloc)?)?;
    Ok(())
}

// Returns the numbers of the tables that changes name.
fn named_numbers(alloc: Global, changes: &[Change]) -> Result<BTreeSet<u16>, NoMemory>
    ensures { IfOk result (λ numbers. (number : ℕ) →
        contains nat_cmp numbers number ≡ list_any (λ change. change.table == number) changes.now) }
{
    let mut numbers = BTreeSet::new(alloc);
    for change in changes {
        numbers.insert(change.table)?;
    }
    Ok(numbers)
}
