ghost use Rattle.std.specs.Prelude.{◌≡◌, ◌<◌, ◌≤◌, ◌+◌, ◌^◌, ◌≢◌, ◌++◌, ℕ, List, [], ◌∷◌, length, codes, true, false, is_some};
ghost use Rattle.rb_base.specs.declared.schema.Mapped.{Mapped};
ghost use Rattle.rb_base.specs.declared.change.Change.{Change};
ghost use Rattle.rb_base.specs.declared.body.EpochBody.{EpochBody};
ghost use Rattle.rb_log_defs.specs.Event.{header_bytes, query_payload, rotate_payload, format_payload, xid_payload};
ghost use Rattle.rb_log_defs.specs.Table.{table_map_payload, status_table};
ghost use Rattle.rb_log_defs.specs.Rows.{change_payload, status_payload};
ghost use Rattle.rb_log_defs.specs.Epoch.{epoch_bytes};
ghost use Rattle.rb_log_defs.specs.Worked.{first_path};
ghost use Rattle.rb_read_defs.specs.Reading.{Read};
ghost use Rattle.rb_read_defs.specs.Events.{header, is_known, query, xid, rotate, format, table_map};
ghost use Rattle.rb_read_defs.specs.Rows.{changes, statuses};
ghost use Rattle.rb_read_defs.specs.Readable.{IsReadableTable, IsReadableChange, IsReflected, status_rows_of, IsReadable, IsReadBack};
ghost use Rattle.rb_read_defs.specs.Stream.{Known, is_open, is_rotated, seen_of, steps_of};
ghost use Rattle.rb_read_defs.specs.declared.answers.QueryText.TheVariants.{Begin};
ghost use Rattle.rb_read_defs.specs.declared.answers.Step.{Step};

/// More bytes do not change what was read of the first bytes of a log, however the log is cut.
///
/// The events that were read stay the first events, and their steps the first steps. If an event
/// was bad, nothing is read after it.
pub fn more_bytes_keep_what_was_seen()
    ensures events { (position : ℕ) (bytes more : List ℕ) → (later : List Known)
        × ((seen_of position (bytes ++ more)).known ≡ later ++ (seen_of position bytes).known) }
    ensures steps { (position : ℕ) (bytes more : List ℕ) → (later : List Step)
        × (steps_of (seen_of position (bytes ++ more)).known
        ≡ steps_of (seen_of position bytes).known ++ later) }
    ensures fault { (position : ℕ) (bytes more : List ℕ) →
        is_some (seen_of position bytes).fault ≡ true →
        seen_of position (bytes ++ more) ≡ seen_of position bytes }
{}

/// The header of a written event is read as it was written, whatever follows it: the type, the
/// server, the length, the position after the event, and the flags.
pub fn a_header_is_read_back()
    ensures { (kind server size start flags : ℕ) (more : List ℕ) → is_known kind ≡ true →
        server < 2 ^ 32 → 19 ≤ size → size ≤ 2147483647 → start + size < 2 ^ 32 → flags < 2 ^ 16 →
        header start (header_bytes kind server size (start + size) flags ++ more) 0
        ≡ Read (record {
          kind = kind;
          server = server;
          size = size;
          end = start + size;
          flags = flags;
        }) 19 }
{}

/// The payload of each written event without rows is read to its end as it was written.
///
/// These are BEGIN, the number that ends a transaction, a rotation, the format description, and a
/// table with its name and columns, including the apply-status table.
pub fn events_are_read_back()
    ensures begin { query (query_payload (codes "BEGIN")) 0 ≡ Read Begin 19 }
    ensures xid { (n : ℕ) → n < 2 ^ 64 → xid (xid_payload n) 0 ≡ Read n 8 }
    ensures rotate { (position : ℕ) (name : List ℕ) → position < 2 ^ 64 →
        rotate (rotate_payload position name) 0
        ≡ Read (record { position = position; name = name }) (8 + length name) }
    ensures format { format format_payload 0 ≡ Read tt 92 }
    ensures table_map { (table : Mapped) → IsReadableTable table →
        table_map (table_map_payload table) 0 ≡ Read table (length (table_map_payload table)) }
    ensures status_map { table_map (table_map_payload status_table) 0
        ≡ Read status_table (length (table_map_payload status_table)) }
{}

/// The payload of each written rows event is read to its end as its rows. These are a change by the
/// server that wrote it to a table with a known map, whatever the flags are, and the apply-status
/// rows of an epoch.
pub fn rows_are_read_back()
    ensures changes { (server : ℕ) (table : Mapped) (change : Change) (flags : ℕ) →
        IsReadableTable table → IsReadableChange server table.columns change →
        change.table ≡ table.id → flags < 2 ^ 16 →
        changes change.kind server table (change_payload table.columns change flags) 0
        ≡ Read (change ∷ []) (length (change_payload table.columns change flags)) }
    ensures statuses { (body : EpochBody) → body.server < 2 ^ 32 → body.epoch.0 < 2 ^ 64 →
        IsReflected body.reflected →
        statuses status_table (status_payload body) 0
        ≡ Read (status_rows_of body) (length (status_payload body)) }
{}

/// A readable epoch is read as it was written.
///
/// It may start at any position except 4, and must end below 2^32. It may follow any events that
/// leave no epoch open and whose last one is not a rotation. It gives exactly one step, which is
/// this epoch and the position after it. The bytes after it are read as if they came first. The
/// epoch of the worked example is readable.
pub fn an_epoch_is_read_back()
    ensures back { (body : EpochBody) (start : ℕ) (earlier : List Known) → IsReadable body →
        start ≢ 4 → is_open earlier ≡ false → is_rotated earlier ≡ false →
        start + length (epoch_bytes body start) < 2 ^ 32 → IsReadBack body start earlier }
    ensures worked { IsReadable first_path }
{}

/// At the same position, the bytes of a readable epoch never begin with those of a different one.
/// If they begin with the bytes of a readable epoch, they are exactly that epoch.
pub fn an_epoch_begins_no_other()
    ensures { (one other : EpochBody) (start : ℕ) (more : List ℕ) → IsReadable one →
        IsReadable other → start ≢ 4 → start + length (epoch_bytes other start) < 2 ^ 32 →
        epoch_bytes other start ≡ epoch_bytes one start ++ more → (other ≡ one) × (more ≡ []) }
{}
