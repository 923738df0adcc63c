ghost use Rattle.std.specs.Prelude.{◌≡◌, [], ◌∷◌, codes, map, IfOk, option_map};
ghost use Rattle.std.specs.List.{slice_split};
ghost use Rattle.rb_base.specs.declared.script.Event.TheVariants as events;
ghost use Rattle.rb_text_defs.specs.Words.{all_of};
ghost use Rattle.rb_text_defs.specs.Form.{deliver_line, form_from, form_of, is_word, node_event, operation_of, site_event, site_line, site_of, table_line, tx_line, type_of};
ghost use Rattle.rb_script.specs.Seen.{column_seen, form_seen, only_site, operation_seen, site_and_node, word_of};

use crate::column::{ColumnType, type_of};
use crate::operation::{Operation, read_operation};
use crate::word::Word;
use rb_base::{Event, NoMemory, SiteId, SiteSetup};
use std::alloc::{AllocError, Global};

/// What a line says.
#[derive(Drop)]
pub(crate) enum Form<'a> {
    /// The shape of a site.
    Site(SiteId, SiteSetup),
    /// A table, with the types of its columns after the key.
    Table(&'a [u8], Vec<ColumnType>),
    /// A client's transaction.
    Tx(SiteId, Vec<Operation<'a>>),
    /// Another event.
    Event(Event),
}

/// Returns what a line of these words says, if they are of a form.
#[tactic(auto, unfolding(rb_text_defs::specs::Form::form_of))]
pub(crate) fn read_form<'a>(alloc: Global, words: &[Word<'a>]) -> Result<Option<Form<'a>>, NoMemory>
    ensures { IfOk result (λ form. option_map form_seen form ≡ form_of (map word_of words.now)) }
{
    match words {
        [first, words @ ..] => form_from(alloc, *first, words),
        [] => Ok(None),
    }
}

/// Returns what a line says whose first word is this one.
#[tactic(auto, unfolding(rb_text_defs::specs::Form::form_from))]
fn form_from<'a>(
    alloc: Global,
    first: Word<'a>,
    words: &[Word<'a>],
) -> Result<Option<Form<'a>>, NoMemory>
    ensures { IfOk result (λ form. option_map form_seen form
        ≡ form_from (word_of first.entry) (map word_of words.now)) }
{
    if first.is(b"site") {
        Ok(site_line(words))
    } else if first.is(b"table") {
        table_line(alloc, words)
    } else if first.is(b"tx") {
        tx_line(alloc, words)
    } else if first.is(b"epoch") {
        Ok(close_line(words, false))
    } else if first.is(b"gcp") {
        Ok(close_line(words, true))
    } else if first.is(b"deliver") {
        Ok(deliver_line(words))
    } else if first.is(b"inject") {
        Ok(inject_line(words))
    } else if first.is(b"log") {
        Ok(log_line(words))
    } else if first.is(b"fail") {
        Ok(fail_line(words))
    } else if first.is(b"restart") {
        Ok(restart_line(words))
    } else if first.is(b"resend") {
        Ok(resend_line(words))
    } else if first.is(b"injector") {
        Ok(injector_line(words))
    } else {
        Ok(None)
    }
}

/// Parses the shape of a site: `S groups G replicas R limit L`.
#[tactic(auto, using(crate::proofs::FormLaws::site_line_other))]
fn site_line<'a>(words: &[Word<'a>]) -> Option<Form<'a>>
    ensures { option_map form_seen result ≡ site_line (map word_of words.now) }
{
    if words.len() != 7 {
        return None;
    }
    site_shape(
        words[0], words[1], words[2], words[3], words[4], words[5], words[6],
    )
}

/// Parses the shape of a site from seven words.
#[tactic(auto, unfolding(rb_text_defs::specs::Form::site_line))]
fn site_shape<'a>(
    site: Word<'a>,
    groups: Word<'a>,
    count: Word<'a>,
    replicas: Word<'a>,
    nodes: Word<'a>,
    limit: Word<'a>,
    length: Word<'a>,
) -> Option<Form<'a>>
    ensures { option_map form_seen result
        ≡ site_line (word_of site.entry ∷ word_of groups.entry ∷ word_of count.entry ∷ word_of
        replicas.entry
        ∷ word_of nodes.entry ∷ word_of limit.entry ∷ word_of length.entry ∷ []) }
{
    let site = site_of(site)?;
    let shape = SiteSetup {
        groups: count.small_number()?,
        replicas: nodes.small_number()?,
        limit: length.number()?,
    };
    if !groups.is(b"groups") || !replicas.is(b"replicas") || !limit.is(b"limit") {
        return None;
    }
    Some(Form::Site(site, shape))
}

/// Returns the site that a word names.
fn site_of(word: Word<'_>) -> Option<SiteId>
    ensures { result ≡ site_of (word_of word.entry) }
{
    if word.is(b"A") { Some(SiteId::A) } else { None }
}

/// Parses a table: `NAME TYPE ..`.
#[tactic(auto, unfolding(rb_text_defs::specs::Form::table_line))]
fn table_line<'a>(alloc: Global, words: &[Word<'a>]) -> Result<Option<Form<'a>>, NoMemory>
    ensures { IfOk result (λ form. option_map form_seen form ≡ table_line (map word_of words.now)) }
{
    match words {
        [name, types @ ..] => table(alloc, *name, types),
        [] => Ok(None),
    }
}

/// Returns the table of this name, with columns of these types.
#[tactic(auto, unfolding(rb_text_defs::specs::Form::table_line))]
fn table<'a>(
    alloc: Global,
    name: Word<'a>,
    types: &[Word<'a>],
) -> Result<Option<Form<'a>>, NoMemory>
    ensures { IfOk result (λ form. option_map form_seen form
        ≡ table_line (word_of name.entry ∷ map word_of types.now)) }
{
    let Some(name) = name.name() else {
        return Ok(None);
    };
    let Some(types) = types_of(alloc, types)? else {
        return Ok(None);
    };
    Ok(Some(Form::Table(name, types)))
}

/// Returns the types that these words name, if each names one.
fn types_of(alloc: Global, words: &[Word<'_>]) -> Result<Option<Vec<ColumnType>>, NoMemory>
    ensures { IfOk result (λ types. option_map (λ types. map column_seen types.items) types
        ≡ all_of (map type_of (map word_of words.now))) }
{
    let mut types = Vec::new(alloc);
    for word in words {
        let Some(column_type) = type_of(*word) else {
            return Ok(None);
        };
        types.push(column_type)?;
    }
    Ok(Some(types))
}

/// Parses a client's transaction: `S OP ; OP ..`.
#[tactic(auto, unfolding(rb_text_defs::specs::Form::tx_line))]
fn tx_line<'a>(alloc: Global, words: &[Word<'a>]) -> Result<Option<Form<'a>>, NoMemory>
    ensures { IfOk result (λ form. option_map form_seen form ≡ tx_line (map word_of words.now)) }
{
    match words {
        [site, words @ ..] => transaction(alloc, *site, words),
        [] => Ok(None),
    }
}

/// Parses the operations of a transaction at this site.
#[tactic(auto, unfolding(rb_text_defs::specs::Form::tx_line))]
fn transaction<'a>(
    alloc: Global,
    site: Word<'a>,
    words: &[Word<'a>],
) -> Result<Option<Form<'a>>, NoMemory>
    ensures { IfOk result (λ form. option_map form_seen form
        ≡ tx_line (word_of site.entry ∷ map word_of words.now)) }
{
    let Some(site) = site_of(site) else {
        return Ok(None);
    };
    let Some(operations) = operations_of(alloc, words)? else {
        return Ok(None);
    };
    Ok(Some(Form::Tx(site, operations)))
}

/// Returns the operations between the semicolons, if each is one.
fn operations_of<'a>(
    alloc: Global,
    words: &[Word<'a>],
) -> Result<Option<Vec<Operation<'a>>>, NoMemory>
    ensures { IfOk result (λ operations.
        option_map (λ operations. map operation_seen operations.items) operations
        ≡ all_of (map operation_of (slice_split (is_word (codes ";")) (map word_of words.now)))) }
{
    let pieces = pieces(alloc, words)?;
    operations_in(alloc, &pieces)
}

/// Returns the pieces before, between and after the semicolons.
fn pieces<'a, 'b>(alloc: Global, words: &'b [Word<'a>]) -> Result<Vec<&'b [Word<'a>]>, AllocError>
    ensures { IfOk result (λ pieces. map (λ piece. piece.now) pieces.items
        ≡ slice_split (λ word. is_word (codes ";") (word_of word)) words.now) }
{
    words.split(|word| is_semicolon(*word)).collect(alloc)
}

fn is_semicolon(word: Word<'_>) -> bool
    ensures { result ≡ is_word (codes ";") (word_of word.entry) }
{
    word.is(b";")
}

/// Returns the operations that these pieces say, if each says one.
fn operations_in<'a>(
    alloc: Global,
    pieces: &[&[Word<'a>]],
) -> Result<Option<Vec<Operation<'a>>>, NoMemory>
    ensures { IfOk result (λ operations.
        option_map (λ operations. map operation_seen operations.items) operations
        ≡ all_of (map (λ piece. operation_of (map word_of piece.now)) pieces.now)) }
{
    let mut operations = Vec::new(alloc);
    for piece in pieces {
        let Some(operation) = read_operation(alloc, piece)? else {
            return Ok(None);
        };
        operations.push(operation)?;
    }
    Ok(Some(operations))
}

/// Returns the site, if the words are one site and nothing else.
#[tactic(auto, unfolding(crate::specs::Seen::only_site))]
fn only_site(words: &[Word<'_>]) -> Option<SiteId>
    ensures { result ≡ only_site (map word_of words.now) }
{
    match words {
        [site] => site_of(*site),
        _ => None,
    }
}

/// Parses a close of the open epoch: `S`.
#[tactic(auto, using(crate::proofs::FormLaws::site_event_only))]
fn close_line<'a>(words: &[Word<'_>], gci: bool) -> Option<Form<'a>>
    ensures { option_map form_seen result
        ≡ site_event (λ site. events.Close site gci) (map word_of words.now) }
{
    let site = only_site(words)?;
    Some(Form::Event(Event::Close(site, gci)))
}

/// Parses an `inject`: `S`.
#[tactic(auto, using(crate::proofs::FormLaws::site_event_only))]
fn inject_line<'a>(words: &[Word<'_>]) -> Option<Form<'a>>
    ensures { option_map form_seen result
        ≡ site_event (λ site. events.Inject site) (map word_of words.now) }
{
    let site = only_site(words)?;
    Some(Form::Event(Event::Inject(site)))
}

/// Parses a `log`: `S`.
#[tactic(auto, using(crate::proofs::FormLaws::site_event_only))]
fn log_line<'a>(words: &[Word<'_>]) -> Option<Form<'a>>
    ensures { option_map form_seen result
        ≡ site_event (λ site. events.Log site) (map word_of words.now) }
{
    let site = only_site(words)?;
    Some(Form::Event(Event::Log(site)))
}

/// Parses a `resend`: `S`.
#[tactic(auto, using(crate::proofs::FormLaws::site_event_only))]
fn resend_line<'a>(words: &[Word<'_>]) -> Option<Form<'a>>
    ensures { option_map form_seen result
        ≡ site_event (λ site. events.Resend site) (map word_of words.now) }
{
    let site = only_site(words)?;
    Some(Form::Event(Event::Resend(site)))
}

/// Parses an `injector`: `S`.
#[tactic(auto, using(crate::proofs::FormLaws::site_event_only))]
fn injector_line<'a>(words: &[Word<'_>]) -> Option<Form<'a>>
    ensures { option_map form_seen result
        ≡ site_event (λ site. events.Injector site) (map word_of words.now) }
{
    let site = only_site(words)?;
    Some(Form::Event(Event::Injector(site)))
}

/// Returns the site and the node, if the words are these and nothing else.
#[tactic(auto, unfolding(crate::specs::Seen::site_and_node))]
fn site_and_node(words: &[Word<'_>]) -> Option<(SiteId, u32)>
    ensures { result ≡ site_and_node (map word_of words.now) }
{
    let [site, node] = words else {
        return None;
    };
    let site = site_of(*site)?;
    let node = node.small_number()?;
    Some((site, node))
}

/// Parses a failure of a node: `S NODE`.
#[tactic(auto, using(crate::proofs::FormLaws::node_event_both))]
fn fail_line<'a>(words: &[Word<'_>]) -> Option<Form<'a>>
    ensures { option_map form_seen result
        ≡ node_event (λ site node. events.Fail site node) (map word_of words.now) }
{
    let (site, node) = site_and_node(words)?;
    Some(Form::Event(Event::Fail(site, node)))
}

/// Parses a restart of a node: `S NODE`.
#[tactic(auto, using(crate::proofs::FormLaws::node_event_both))]
fn restart_line<'a>(words: &[Word<'_>]) -> Option<Form<'a>>
    ensures { option_map form_seen result
        ≡ node_event (λ site node. events.Restart site node) (map word_of words.now) }
{
    let (site, node) = site_and_node(words)?;
    Some(Form::Event(Event::Restart(site, node)))
}

/// Parses a delivery: `S all` or `S PLACE`.
#[tactic(auto, unfolding(rb_text_defs::specs::Form::deliver_line))]
fn deliver_line<'a>(words: &[Word<'_>]) -> Option<Form<'a>>
    ensures { option_map form_seen result ≡ deliver_line (map word_of words.now) }
{
    let [site, what] = words else {
        return None;
    };
    let site = site_of(*site)?;
    if what.is(b"all") {
        return Some(Form::Event(Event::DeliverAll(site)));
    }
    let place = what.number()?;
    Some(Form::Event(Event::Deliver(site, place)))
}
