ghost use Rattle.std.specs.Prelude.{◌≡◌, ◌++◌, ◌∷◌, [], codes, false, OnOk};
ghost use Rattle.std.specs.List.{concat, flat_map};
ghost use Rattle.rb_text_defs.specs.Report.{delivered_text, labelled, listed_text, missing_text, outcome_text, wrote_text};
ghost use Rattle.rb_base.specs.declared.outcome.Outcome.TheVariants as outcomes;
ghost use Rattle.rb_print.specs.Groups.{is_of_nodes, is_of_site};

use crate::put::{Labelled, letter, put, put_number, put_numbers};
use rb_base::{Epoch, Listed, NoMemory, Outcome, SiteId};

/// Appends what an event did.
#[tactic(auto, unfolding(rb_text_defs::specs::Report::outcome_text))]
pub(crate) fn put_outcome(text: &mut Vec<u8>, outcome: &Outcome) -> Result<(), NoMemory>
    ensures { OnOk result (text.new.items ≡ text.old.items ++ outcome_text outcome.now) }
{
    match outcome {
        Outcome::Committed {
            transid,
            epoch,
            sent,
        } => put_committed(text, *transid, *epoch, *sent),
        Outcome::RowTwice(number) => put_number(text, b"row twice ", u64::from(*number)),
        Outcome::KeyThere(number) => put_number(text, b"key there ", u64::from(*number)),
        Outcome::NoKey(number) => put_number(text, b"no key ", u64::from(*number)),
        Outcome::Closed { epoch, sent } => put_closed(text, *epoch, *sent),
        Outcome::Kept => put(text, b"kept"),
        Outcome::Known => put(text, b"known"),
        Outcome::Old => put(text, b"old"),
        Outcome::NoMessage { place, sent } => put_no_message(text, *place, *sent),
        Outcome::Delivered { kept, known, old } => put_delivered(text, *kept, *known, *old),
        Outcome::Wrote {
            count,
            written,
            bucket,
            place,
        } => put_wrote(text, *count, *written, *bucket, *place),
        Outcome::Logged {
            kept,
            known,
            old,
            count,
            written,
            bucket,
            place,
        } => {
            put_delivered(text, *kept, *known, *old)?;
            put_wrote_too(text, *count, *written, *bucket, *place)?;
            Ok(())
        }
        _ => put_nodes(text, outcome),
    }
}

/// Appends what an event of data nodes did, or an event of the log's way to the peer.
#[tactic(auto, unfolding(rb_text_defs::specs::Report::outcome_text))]
fn put_nodes(text: &mut Vec<u8>, outcome: &Outcome) -> Result<(), NoMemory>
    requires { is_of_site outcome.now ≡ false }
    ensures { OnOk result (text.new.items ≡ text.old.items ++ outcome_text outcome.now) }
{
    match outcome {
        Outcome::Failed { takeover, sent } => put_failed(text, *takeover, *sent),
        Outcome::Lost { group, epoch } => put_lost(text, b"lost ", *group, *epoch),
        Outcome::NodeDown(node) => put_number(text, b"node down ", u64::from(*node)),
        Outcome::Restarted { since } => put_number(text, b"restarted since=", since.0),
        Outcome::NodeUp(node) => put_number(text, b"node up ", u64::from(*node)),
        Outcome::Resent { sent } => put_number(text, b"resent sent=", *sent),
        Outcome::Recovered { written, sent } => put_recovered(text, *written, *sent),
        Outcome::DrainLost { site, group, epoch } => { put_drain_lost(text, *site, *group, *epoch) }
        Outcome::SiteLost { group, epoch } => put_lost(text, b"site lost ", *group, *epoch),
        _ => put_stream(text, outcome),
    }
}

/// Appends what an event of the log's way to the peer did.
#[tactic(auto, unfolding(rb_text_defs::specs::Report::outcome_text))]
fn put_stream(text: &mut Vec<u8>, outcome: &Outcome) -> Result<(), NoMemory>
    requires site { is_of_site outcome.now ≡ false }
    requires nodes { is_of_nodes outcome.now ≡ false }
    ensures { OnOk result (text.new.items ≡ text.old.items ++ outcome_text outcome.now) }
{
    match outcome {
        Outcome::Taken { file, position } => put_place(text, b"taken file=", *file, *position),
        Outcome::NotNext { file, position } => {
            put_place(text, b"not next file=", *file, *position)?;
            Ok(())
        }
        Outcome::ApplierAt { file, position } => {
            put_place(text, b"restarted file=", *file, *position)?;
            Ok(())
        }
        Outcome::Applied {
            epoch,
            accepted,
            rejected,
            refreshed,
            sent,
        } => put_applied(text, *epoch, *accepted, *rejected, *refreshed, *sent),
        Outcome::Nothing => put(text, b"nothing"),
        Outcome::Flowed {
            count,
            file,
            position,
        } => put_flowed(text, *count, *file, *position),
        Outcome::Dumped { files, events } => put_dumped(text, *files, events.as_slice()),
        Outcome::Drained => put(text, b"drained"),
        // No outcome is left here: the callers take all others.
        _ => Ok(()),
    }
}

/// Appends that a transaction was committed.
#[tactic(auto, unfolding(rb_text_defs::specs::Report::outcome_text))]
fn put_committed(text: &mut Vec<u8>, transid: u64, epoch: Epoch, sent: u64) -> Result<(), NoMemory>
    ensures { OnOk result (text.new.items ≡ text.old.items
        ++ outcome_text (outcomes.Committed transid epoch sent)) }
{
    put_numbers(
        text,
        &[
            Labelled(b"ok transid=", transid),
            Labelled(b" epoch=", epoch.0),
            Labelled(b" sent=", sent),
        ],
    )
}

/// Appends that an epoch was closed.
#[tactic(auto, unfolding(rb_text_defs::specs::Report::outcome_text))]
fn put_closed(text: &mut Vec<u8>, epoch: Epoch, sent: u64) -> Result<(), NoMemory>
    ensures { OnOk result (text.new.items ≡ text.old.items
        ++ outcome_text (outcomes.Closed epoch sent)) }
{
    put_numbers(
        text,
        &[Labelled(b"closed ", epoch.0), Labelled(b" sent=", sent)],
    )
}

/// Appends that there is no message at a place.
#[tactic(auto, unfolding(rb_text_defs::specs::Report::outcome_text))]
fn put_no_message(text: &mut Vec<u8>, place: u64, sent: u64) -> Result<(), NoMemory>
    ensures { OnOk result (text.new.items ≡ text.old.items
        ++ outcome_text (outcomes.NoMessage place sent)) }
{
    put_numbers(
        text,
        &[Labelled(b"no message ", place), Labelled(b" ", sent)],
    )
}

/// Appends how many messages were delivered.
#[tactic(auto, unfolding(rb_text_defs::specs::Report::outcome_text))]
fn put_delivered(text: &mut Vec<u8>, kept: u64, known: u64, old: u64) -> Result<(), NoMemory>
    ensures { OnOk result (text.new.items ≡ text.old.items ++ delivered_text kept known old) }
{
    put_numbers(
        text,
        &[
            Labelled(b"delivered kept=", kept),
            Labelled(b" known=", known),
            Labelled(b" old=", old),
        ],
    )
}

/// Appends how many epochs were written, and the first thing that is missing.
#[tactic(auto, using(crate::proofs::TextLaws::after_two))]
fn put_wrote(
    text: &mut Vec<u8>,
    count: u64,
    written: Epoch,
    bucket: u32,
    place: Option<u32>,
) -> Result<(), NoMemory>
    ensures { OnOk result (text.new.items ≡ text.old.items
        ++ wrote_text count written bucket place) }
{
    put_number(text, b"wrote ", count)?;
    put_number(text, b" written=", written.0)?;
    put_missing(text, bucket, place)?;
    Ok(())
}

/// Appends a space, and then how many epochs were written.
#[tactic(auto, using(crate::proofs::TextLaws::after_one))]
fn put_wrote_too(
    text: &mut Vec<u8>,
    count: u64,
    written: Epoch,
    bucket: u32,
    place: Option<u32>,
) -> Result<(), NoMemory>
    ensures { OnOk result (text.new.items
        ≡ text.old.items ++ concat (codes " " ∷ wrote_text count written bucket place ∷ [])) }
{
    put(text, b" ")?;
    put_wrote(text, count, written, bucket, place)?;
    Ok(())
}

/// Appends the first thing that an event buffer misses: a bucket, and a place of it or its Done.
fn put_missing(text: &mut Vec<u8>, bucket: u32, place: Option<u32>) -> Result<(), NoMemory>
    ensures { OnOk result (text.new.items ≡ text.old.items ++ missing_text bucket place) }
{
    put_number(text, b" missing=", u64::from(bucket))?;
    match place {
        Some(place) => {
            put_number(text, b":", u64::from(place))?;
            Ok(())
        }
        None => {
            put(text, b":done")?;
            Ok(())
        }
    }
}

/// Appends that a node failed.
#[tactic(auto, unfolding(rb_text_defs::specs::Report::outcome_text))]
fn put_failed(text: &mut Vec<u8>, takeover: u32, sent: u64) -> Result<(), NoMemory>
    ensures { OnOk result (text.new.items ≡ text.old.items
        ++ outcome_text (outcomes.Failed takeover sent)) }
{
    put_numbers(
        text,
        &[
            Labelled(b"failed takeover=", u64::from(takeover)),
            Labelled(b" sent=", sent),
        ],
    )
}

/// Appends that a node group is lost: a label, the group, and the epoch.
fn put_lost(text: &mut Vec<u8>, label: &[u8], group: u32, epoch: Epoch) -> Result<(), NoMemory>
    ensures { OnOk result (text.new.items
        ≡ text.old.items ++ concat (labelled label.now group ∷ labelled (codes " ") epoch.0 ∷ [])) }
{
    put_numbers(
        text,
        &[Labelled(label, u64::from(group)), Labelled(b" ", epoch.0)],
    )
}

/// Appends that the injector recovered.
#[tactic(auto, unfolding(rb_text_defs::specs::Report::outcome_text))]
fn put_recovered(text: &mut Vec<u8>, written: Epoch, sent: u64) -> Result<(), NoMemory>
    ensures { OnOk result (text.new.items ≡ text.old.items
        ++ outcome_text (outcomes.Recovered written sent)) }
{
    put_numbers(
        text,
        &[
            Labelled(b"recovered written=", written.0),
            Labelled(b" sent=", sent),
        ],
    )
}

/// Appends that a node group of a site is lost.
#[tactic(auto, unfolding(rb_text_defs::specs::Report::outcome_text))]
fn put_drain_lost(
    text: &mut Vec<u8>,
    site: SiteId,
    group: u32,
    epoch: Epoch,
) -> Result<(), NoMemory>
    ensures { OnOk result (text.new.items ≡ text.old.items
        ++ outcome_text (outcomes.DrainLost site group epoch)) }
{
    put(text, b"lost ")?;
    put(text, letter(site))?;
    put_lost(text, b" ", group, epoch)?;
    Ok(())
}

/// Appends a place in a log: a label, the file, and the position.
fn put_place(text: &mut Vec<u8>, label: &[u8], file: u32, position: u64) -> Result<(), NoMemory>
    ensures { OnOk result (text.new.items
        ≡ text.old.items ++ concat (labelled label.now file ∷ labelled
        (codes " pos=") position ∷ [])) }
{
    put_numbers(
        text,
        &[
            Labelled(label, u64::from(file)),
            Labelled(b" pos=", position),
        ],
    )
}

/// Appends that an epoch was applied.
#[tactic(auto, unfolding(rb_text_defs::specs::Report::outcome_text))]
fn put_applied(
    text: &mut Vec<u8>,
    epoch: Epoch,
    accepted: u32,
    rejected: u32,
    refreshed: u32,
    sent: u64,
) -> Result<(), NoMemory>
    ensures { OnOk result (text.new.items ≡ text.old.items
        ++ outcome_text (outcomes.Applied epoch accepted rejected refreshed sent)) }
{
    put_numbers(
        text,
        &[
            Labelled(b"applied ", epoch.0),
            Labelled(b" accepted=", u64::from(accepted)),
            Labelled(b" rejected=", u64::from(rejected)),
            Labelled(b" refreshed=", u64::from(refreshed)),
            Labelled(b" sent=", sent),
        ],
    )
}

/// Appends that epochs were applied up to a place.
#[tactic(auto, unfolding(rb_text_defs::specs::Report::outcome_text))]
fn put_flowed(text: &mut Vec<u8>, count: u64, file: u32, position: u64) -> Result<(), NoMemory>
    ensures { OnOk result (text.new.items ≡ text.old.items
        ++ outcome_text (outcomes.Flowed count file position)) }
{
    put_numbers(
        text,
        &[
            Labelled(b"flowed ", count),
            Labelled(b" file=", u64::from(file)),
            Labelled(b" pos=", position),
        ],
    )
}

/// Appends the events of a site's files.
fn put_dumped(text: &mut Vec<u8>, files: u32, events: &[Listed]) -> Result<(), NoMemory>
    ensures { OnOk result (text.new.items
        ≡ text.old.items ++ (labelled (codes "dumped files=") files
        ++ flat_map listed_text events.now)) }
{
    put_number(text, b"dumped files=", u64::from(files))?;
    put_listed(text, events)?;
    Ok(())
}

/// Appends events of files, each on a line of its own.
fn put_listed(text: &mut Vec<u8>, events: &[Listed]) -> Result<(), NoMemory>
    ensures { OnOk result (text.new.items ≡ text.old.items ++ flat_map listed_text events.now) }
{
    for event in events {
        put_event(text, *event)?;
    }
    Ok(())
}

/// Appends an event of a file, on a line of its own.
fn put_event(text: &mut Vec<u8>, event: Listed) -> Result<(), NoMemory>
    ensures { OnOk result (text.new.items ≡ text.old.items ++ listed_text event) }
{
    put_numbers(
        text,
        &[
            Labelled(b"\nevent file=", u64::from(event.file)),
            Labelled(b" pos=", event.position),
            Labelled(b" type=", u64::from(event.kind)),
            Labelled(b" size=", u64::from(event.size)),
            Labelled(b" end=", u64::from(event.end)),
        ],
    )
}
