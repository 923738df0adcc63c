ghost use Rattle.std.specs.Prelude.{◌≡◌, ◌+◌, ◌*◌, ◌<◌, ◌≤◌, nat_le, ◌∷◌, [], ◌++◌, List, length, map, IfNone, Some, None, OnOk, true, false, option_map};
ghost use Rattle.std.specs.Option.{option_map_or};
ghost use Rattle.rb_base.specs.declared.script.Event.TheVariants as events;
ghost use Rattle.rb_text_defs.specs.Form.{EventLine, Form as LineForm, LineMeaning, Says, Skipped};
ghost use Rattle.rb_text_defs.specs.Script.{bad_line, client_op, closes_in_form, is_misplaced, limit_passed, most_changes, most_lines, most_row_bytes, most_tables, node_in, refusal_of_line, restarts_in_form, row_bytes, script_in};
ghost use Rattle.rb_script.specs.Seen.{column_seen, form_seen, operation_seen};
ghost use Rattle.rb_script.specs.Summarizes.{HasRoom, IsSmall, Summarizes, SummarizesForms, forms_of};

use crate::column::{ColumnType, columns_of};
use crate::form::Form;
use crate::limit::{DEFAULT_LIMIT, MOST_LINES, site_limit, table_limit, tx_limit, work_limit};
use crate::operation::Operation;
use crate::table::{all_suit, client_ops, table_named};
use rb_base::{Bytes, Event, Mode, NoMemory, Schema, Schemas, Setup, SiteId, SiteSetup};
use rb_text_defs::{Limit, LinedEvent, LinedEvents, Script, ScriptKind};
use std::alloc::Global;

/// The shape of a site that no line gives.
const DEFAULT_SITE: SiteSetup = SiteSetup {
    groups: 1,
    replicas: 1,
    limit: DEFAULT_LIMIT,
};

/// A summary of the lines so far.
#[derive(Drop)]
pub(crate) struct Before {
    /// The number of lines.
    pub(crate) lines: u32,
    /// The shape of site A, if a line gave one.
    pub(crate) site: Option<SiteSetup>,
    pub(crate) tables: Schemas,
    /// Whether one of the lines was an event.
    pub(crate) has_event: bool,
    /// The number of changes of the transactions.
    pub(crate) changes: u32,
    /// The number of closed epochs.
    pub(crate) closes: u32,
    /// How often a node fails or restarts, or all owners resend.
    pub(crate) restarts: u32,
    pub(crate) events: LinedEvents,
}

impl Before {
    /// Returns the summary of no lines.
    #[tactic(auto, using(crate::proofs::SummaryLaws::none_summary))]
    pub(crate) fn new(alloc: Global) -> Self
        ensures { Summarizes [] result }
    {
        Before {
            lines: 0,
            site: None,
            tables: Schemas::new(alloc),
            has_event: false,
            changes: 0,
            closes: 0,
            restarts: 0,
            events: LinedEvents::new(alloc),
        }
    }

    /// Returns why a line of this form is refused: it does not fit the lines before it, or it
    /// exceeds a limit.
    pub(crate) fn refusal(&self, form: &Form<'_>) -> Option<ScriptKind>
        requires { IsSmall self.now }
        ensures kind { (forms : List LineForm) → SummarizesForms forms self.now
            → option_map (λ kind. bad_line (self.now.lines + 1) kind) result
            ≡ refusal_of_line forms (self.now.lines + 1) (Says (form_seen form.now)) }
        ensures room { IfNone result (HasRoom self.now (form_seen form.now)) }
    {
        if self.is_misplaced(form) {
            return Some(ScriptKind::Setup);
        }
        match self.limit_passed(form) {
            Some(limit) => Some(ScriptKind::Limit(limit)),
            None => None,
        }
    }

    /// Returns whether a line of this form does not fit the lines before it.
    fn is_misplaced(&self, form: &Form<'_>) -> bool
        ensures { (forms : List LineForm) → SummarizesForms forms self.now →
            result ≡ is_misplaced forms (form_seen form.now) }
    {
        match form {
            Form::Site(..) => self.has_event || self.site.is_some(),
            Form::Table(name, _) => {
                self.has_event || table_named(self.tables.as_slice(), name).is_some()
            }
            Form::Tx(_, operations) => !all_suit(self.tables.as_slice(), operations),
            Form::Event(event) => self.lacks_node(event),
        }
    }

    /// Returns whether an event names a node that the site does not have.
    fn lacks_node(&self, event: &Event) -> bool
        ensures { result ≡ option_map_or
            (nat_le (option_map_or (λ shape. shape.groups * shape.replicas) self.now.site 1))
            (node_in event.now) false }
    {
        match node_in(event) {
            Some(node) => self.nodes() <= u64::from(node),
            None => false,
        }
    }

    /// Returns the number of the site's nodes.
    fn nodes(&self) -> u64
        ensures { result ≡ option_map_or (λ shape. shape.groups * shape.replicas) self.now.site 1 }
    {
        match self.site {
            Some(shape) => nodes_of(shape),
            None => 1,
        }
    }

    /// Returns the first limit that a line of this form exceeds.
    fn limit_passed(&self, form: &Form<'_>) -> Option<Limit>
        requires { IsSmall self.now }
        ensures limit { (forms : List LineForm) → SummarizesForms forms self.now
            → result ≡ limit_passed forms (self.now.lines + 1) (form_seen form.now) }
        ensures room { IfNone result (HasRoom self.now (form_seen form.now)) }
    {
        if self.lines >= MOST_LINES {
            return Some(Limit::Lines);
        }
        match form {
            Form::Site(_, shape) => site_limit(*shape),
            Form::Table(_, types) => table_limit(self.tables.as_slice(), types),
            Form::Tx(_, operations) => {
                tx_limit(self.changes, self.closes, self.restarts, operations.len())
            }
            Form::Event(event) => work_limit(
                self.changes,
                self.closes + closes_in(event),
                self.restarts + restarts_in(event),
            ),
        }
    }

    /// Counts a line that is skipped.
    pub(crate) fn skip(&mut self)
        requires { self.old.lines < most_lines }
        ensures summary { (readings : List LineMeaning) → Summarizes readings self.old →
            Summarizes (readings ++ Skipped ∷ []) self.new }
        ensures lines { self.new.lines ≡ self.old.lines + 1 }
    {
        self.lines += 1;
    }

    /// Adds a line of this form, which must not be refused. If memory allocation fails, part of the
    /// line may have been added.
    pub(crate) fn take(&mut self, alloc: Global, form: Form<'_>) -> Result<(), NoMemory>
        requires small { IsSmall self.old }
        requires room { HasRoom self.old (form_seen form) }
        ensures summary { OnOk result ((readings : List LineMeaning) → Summarizes readings self.old
            → refusal_of_line (forms_of readings) (self.old.lines + 1) (Says (form_seen form.entry))
            ≡ None
            → Summarizes (readings ++ Says (form_seen form.entry) ∷ []) self.new) }
        ensures lines { OnOk result (self.new.lines ≡ self.old.lines + 1) }
    {
        match form {
            Form::Site(_, shape) => {
                self.take_site(shape);
                Ok(())
            }
            Form::Table(name, types) => {
                self.take_table(alloc, name, &types)?;
                Ok(())
            }
            Form::Tx(site, operations) => {
                self.take_tx(alloc, site, &operations)?;
                Ok(())
            }
            Form::Event(event) => {
                self.take_event(event)?;
                Ok(())
            }
        }
    }

    /// Returns the script of all lines together.
    pub(crate) fn into_script(self) -> Script
        ensures { (readings : List LineMeaning) → Summarizes readings self →
            result ≡ script_in readings }
    {
        Script {
            setup: Setup {
                mode: Mode::EpochTrans,
                a: self.site.unwrap_or(DEFAULT_SITE),
                b: DEFAULT_SITE,
                tables: self.tables,
            },
            events: self.events,
        }
    }

    fn take_site(&mut self, shape: SiteSetup)
        requires { self.old.lines < most_lines }
        ensures { self.new ≡ record {
          lines = self.old.lines + 1;
          site = Some shape;
          tables = self.old.tables;
          has_event = self.old.has_event;
          changes = self.old.changes;
          closes = self.old.closes;
          restarts = self.old.restarts;
          events = self.old.events;
        } }
    {
        self.lines += 1;
        self.site = Some(shape);
    }

    fn take_table(
        &mut self,
        alloc: Global,
        name: &[u8],
        types: &[ColumnType],
    ) -> Result<(), NoMemory>
        requires lines { self.old.lines < most_lines }
        requires row { row_bytes (map column_seen types.now) ≤ most_row_bytes }
        ensures { OnOk result (self.new ≡ record {
          lines = self.old.lines + 1;
          site = self.old.site;
          tables = self.old.tables ++ record
              { name = name.now; columns = map column_seen types.now } ∷ [];
          has_event = self.old.has_event;
          changes = self.old.changes;
          closes = self.old.closes;
          restarts = self.old.restarts;
          events = self.old.events;
        }) }
    {
        self.lines += 1;
        let name = Bytes::from_vec(Vec::from_slice(alloc, name)?);
        let columns = columns_of(alloc, types)?;
        self.tables.push(Schema { name, columns })?;
        Ok(())
    }

    fn take_tx(
        &mut self,
        alloc: Global,
        site: SiteId,
        operations: &[Operation<'_>],
    ) -> Result<(), NoMemory>
        requires lines { self.old.lines < most_lines }
        requires tables { length self.old.tables ≤ most_tables }
        requires changes { self.old.changes + length operations.now ≤ most_changes }
        ensures { OnOk result (self.new ≡ record {
          lines = self.old.lines + 1;
          site = self.old.site;
          tables = self.old.tables;
          has_event = true;
          changes = self.old.changes + length (map operation_seen operations.now);
          closes = self.old.closes;
          restarts = self.old.restarts;
          events = self.old.events ++ record {
            line = self.old.lines + 1;
            event = events.Tx site (map (client_op self.old.tables)
                (map operation_seen operations.now));
          } ∷ [];
        }) }
    {
        self.lines += 1;
        self.has_event = true;
        self.changes += operations.len() as u32;
        let operations = client_ops(alloc, self.tables.as_slice(), operations)?;
        self.events.push(LinedEvent {
            line: self.lines,
            event: Event::Tx(site, operations),
        })?;
        Ok(())
    }

    fn take_event(&mut self, event: Event) -> Result<(), NoMemory>
        requires lines { self.old.lines < most_lines }
        requires closes { self.old.closes ≤ self.old.lines }
        requires restarts { self.old.restarts ≤ self.old.lines }
        ensures few { OnOk result ((self.new.closes ≤ self.new.lines)
            × (self.new.restarts ≤ self.new.lines)) }
        ensures taken { OnOk result (self.new ≡ record {
          lines = self.old.lines + 1;
          site = self.old.site;
          tables = self.old.tables;
          has_event = true;
          changes = self.old.changes;
          closes = self.old.closes + closes_in_form (EventLine event);
          restarts = self.old.restarts + restarts_in_form (EventLine event);
          events = self.old.events ++ record { line = self.old.lines + 1; event = event } ∷ [];
        }) }
    {
        self.lines += 1;
        self.has_event = true;
        self.closes += closes_in(&event);
        self.restarts += restarts_in(&event);
        self.events.push(LinedEvent {
            line: self.lines,
            event,
        })?;
        Ok(())
    }
}

/// Returns the number of epochs that an event closes.
fn closes_in(event: &Event) -> u32
    ensures closes { result ≡ closes_in_form (EventLine event.now) }
    ensures few { result ≤ 1 }
{
    match event {
        Event::Close(..) => 1,
        _ => 0,
    }
}

/// Returns how often an event makes a node fail or restart, or all owners resend.
fn restarts_in(event: &Event) -> u32
    ensures restarts { result ≡ restarts_in_form (EventLine event.now) }
    ensures few { result ≤ 1 }
{
    match event {
        Event::Fail(..) | Event::Restart(..) | Event::Resend(_) | Event::Injector(_) => 1,
        _ => 0,
    }
}

/// Returns the node that an event names.
fn node_in(event: &Event) -> Option<u32>
    ensures { result ≡ node_in event.now }
{
    match event {
        Event::Fail(_, node) => Some(*node),
        Event::Restart(_, node) => Some(*node),
        _ => None,
    }
}

/// Returns the number of nodes of a site of this shape.
fn nodes_of(shape: SiteSetup) -> u64
    ensures { result ≡ shape.groups * shape.replicas }
{
    u64::from(shape.groups) * u64::from(shape.replicas)
}
