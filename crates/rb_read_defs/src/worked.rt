ghost use Rattle.std.specs.Prelude.{◌≡◌, ◌++◌, [], ◌∷◌, take, drop, codes, Some, None};
ghost use Rattle.rb_base.specs.declared.faults.Field.TheVariants as fields;
ghost use Rattle.rb_log_defs.specs.Types.{format_type, xid_type, table_map_type, write_rows_type};
ghost use Rattle.rb_log_defs.specs.Event.{zeros, header_bytes};
ghost use Rattle.rb_log_defs.specs.Worked.{first_path, epoch_of_inserts, insert};
ghost use Rattle.rb_read_defs.specs.Stream.{steps_of, seen_of, rest_of};
ghost use Rattle.rb_read_defs.specs.Worked.{first_file, skipped_event, rotation, unplaced_event, unplaced, begin, commit, again, up_to, between, changed, narrow_map, text_map, update_to, other_status, fault_after, fault_with};
ghost use Rattle.rb_read_defs.specs.declared.answers.Step.TheVariants as steps;

/// Reading the worked example gives a format description and its epoch, and leaves no bytes.
pub fn the_first_path_read()
    ensures steps { steps_of (seen_of 0 first_file).known
        ≡ steps.Format ∷ steps.Epoch first_path 456 ∷ [] }
    ensures fault { (seen_of 0 first_file).fault ≡ None }
    ensures rest { rest_of 0 first_file ≡ 0 }
{}

/// The same file, cut within the epoch: the epoch gives no step, and all its bytes are left.
pub fn an_epoch_cut_short()
    ensures steps { steps_of (seen_of 0 (take 355 first_file)).known ≡ steps.Format ∷ [] }
    ensures fault { (seen_of 0 (take 355 first_file)).fault ≡ None }
    ensures rest { rest_of 0 (take 355 first_file) ≡ 240 }
{}

/// An event of an unknown type whose flags allow a reader to skip it changes nothing.
pub fn a_skipped_event()
    ensures steps { steps_of (seen_of 0 (first_file ++ skipped_event)).known
        ≡ steps.Format ∷ steps.Epoch first_path 456 ∷ [] }
    ensures rest { rest_of 0 (first_file ++ skipped_event) ≡ 0 }
{}

/// One changed byte: the position of the bad event, and the field.
pub fn changed_bytes()
    ensures magic { fault_with 0 0 ≡ Some (0, fields.Magic) }
    ensures event_type { fault_with 119 99 ≡ Some (115, fields.EventType) }
    ensures event_size { fault_with 124 18 ≡ Some (115, fields.EventSize) }
    ensures end_position { fault_with 128 154 ≡ Some (115, fields.EndPosition) }
    ensures table_id { fault_with 334 2 ≡ Some (315, fields.TableId) }
    ensures extra { fault_with 342 1 ≡ Some (315, fields.Extra) }
    ensures width { fault_with 353 3 ≡ Some (315, fields.Width) }
    ensures present { fault_with 354 1 ≡ Some (315, fields.Present) }
    ensures null { fault_with 355 1 ≡ Some (315, fields.Null) }
{}

/// One changed byte before the changes: in the format description, in BEGIN, or in the maps of the
/// two tables.
pub fn changed_heads()
    ensures first_event { fault_with 8 16 ≡ Some (4, fields.Order) }
    ensures version { fault_with 23 5 ≡ Some (4, fields.Version) }
    ensures header_length { fault_with 79 20 ≡ Some (4, fields.HeaderLength) }
    ensures post_header { fault_with 81 14 ≡ Some (4, fields.PostHeader) }
    ensures query_text { fault_with 148 67 ≡ Some (115, fields.QueryText) }
    ensures map_id { fault_with 174 1 ≡ Some (153, fields.TableId) }
    ensures columns { fault_with 205 0 ≡ Some (153, fields.Columns) }
    ensures status_type { fault_with 206 8 ≡ Some (153, fields.ColumnType) }
    ensures metadata { fault_with 211 1 ≡ Some (153, fields.Metadata) }
    ensures map_null { fault_with 214 1 ≡ Some (153, fields.Null) }
    ensures key_type { fault_with 250 3 ≡ Some (215, fields.ColumnType) }
{}

/// Two faults of an epoch: an apply-status row that is updated instead of written, and no row of
/// the server that ends the epoch.
pub fn changed_status()
    ensures written { fault_with 258 31 ≡ Some (254, fields.Status) }
    ensures own { fault_with 286 3 ≡ Some (429, fields.Status) }
    ensures ended_by_another { fault_with 434 2 ≡ Some (429, fields.Status) }
{}

/// A rotate event after the epoch gives its own step, even if its header leaves out the end
/// position. An event after it is bad.
pub fn a_rotation()
    ensures steps { steps_of (seen_of 0 (first_file ++ rotation)).known
        ≡ steps.Format ∷ steps.Epoch first_path 456 ∷ steps.Rotate 4 (codes "a-bin.000002") ∷ [] }
    ensures rest { rest_of 0 (first_file ++ rotation) ≡ 0 }
    ensures after_it { (seen_of 0 (first_file ++ (rotation ++ unplaced_event))).fault
        ≡ Some (495, fields.AfterRotate) }
{}

/// `COMMIT` in place of XID also ends the epoch.
pub fn a_commit()
    ensures steps { steps_of (seen_of 0 (up_to 429 commit)).known
        ≡ steps.Format ∷ steps.Epoch first_path 468 ∷ [] }
    ensures rest { rest_of 0 (up_to 429 commit) ≡ 0 }
{}

/// An epoch may map a table again, and may have rows events without a row. It has at most one
/// apply-status row of its own server and one of another.
pub fn wider_epochs()
    ensures mapped_twice { fault_after 254
        (again table_map_type 215 254 ++ again write_rows_type 254 315) ≡ None }
    ensures no_row { fault_after 372
        (unplaced write_rows_type (drop 334 (take 355 first_file))) ≡ None }
    ensures two_own_rows { (seen_of 0 (up_to 315 (again write_rows_type 254 315))).fault
        ≡ Some (315, fields.Status) }
{}

/// The table maps of an epoch do not apply to the next one. BEGIN and a rotation are bad within an
/// epoch; COMMIT and a table map are bad outside one. A query cannot be the first event.
pub fn events_out_of_place()
    ensures no_map { (seen_of 0 (first_file ++ (begin ++ again write_rows_type 372 429))).fault
        ≡ Some (494, fields.TableId) }
    ensures begin_twice { (seen_of 0 (up_to 429 begin)).fault ≡ Some (429, fields.Order) }
    ensures commit_outside { (seen_of 0 (first_file ++ commit)).fault ≡ Some (456, fields.Order) }
    ensures map_outside { (seen_of 0 (first_file ++ again table_map_type 215 254)).fault
        ≡ Some (456, fields.Order) }
    ensures rotation_inside { (seen_of 0 (up_to 429 rotation)).fault ≡ Some (429, fields.Order) }
    ensures query_first { (seen_of 4 begin).fault ≡ Some (4, fields.Order) }
{}

/// If a payload ends within a field, or an XID event has bytes after its number, the fault is
/// `EventSize`.
pub fn wrong_sizes()
    ensures long { (seen_of 0 (up_to 429 (unplaced xid_type (zeros 9)))).fault
        ≡ Some (429, fields.EventSize) }
    ensures short { (seen_of 0 (up_to 429 (unplaced xid_type (zeros 7)))).fault
        ≡ Some (429, fields.EventSize) }
{}

/// A rows event is read with the latest map of its table. Both images of an update have the same
/// key, and no text is longer than its maximum. Extra data that does not begin with the byte `52`
/// has no transaction number.
pub fn rows_of_other_forms()
    ensures last_map { fault_after 254 (narrow_map
        ++ (again write_rows_type 254 315 ++ again write_rows_type 315 372))
        ≡ Some (354, fields.EventSize) }
    ensures one_key { fault_after 315 (update_to 355 372) ≡ None }
    ensures two_keys { fault_after 315 (update_to 412 429) ≡ Some (315, fields.Key) }
    ensures short_text { fault_after 215 (text_map
        ++ (again write_rows_type 254 315
        ++ unplaced write_rows_type (between 334 364 ++ (2 ∷ 97 ∷ 97 ∷ [])))) ≡ None }
    ensures long_text { fault_after 215 (text_map
        ++ (again write_rows_type 254 315
        ++ unplaced write_rows_type (between 334 364 ++ (3 ∷ 97 ∷ 97 ∷ 97 ∷ []))))
        ≡ Some (317, fields.Length) }
    ensures no_number { steps_of (seen_of 0 (changed 0 456 344 83)).known
        ≡ steps.Format ∷ steps.Epoch
        (epoch_of_inserts 4294967296 (insert 5 7 0 ∷ insert 6 8 2 ∷ [])) 456 ∷ [] }
{}

/// An epoch may have one apply-status row of a server other than that of its events. That row gives
/// the reflected epoch; a second one is bad.
pub fn rows_of_other_servers()
    ensures one { fault_after 315 other_status ≡ None }
    ensures two { fault_after 315 (other_status ++ other_status) ≡ Some (376, fields.Status) }
{}

/// Faults that the header alone decides: an event of its type is not allowed here, or not with this
/// length. Also the least number of post-header lengths of a format description.
pub fn judged_by_the_header()
    ensures skipped_at_first { (seen_of 4 unplaced_event).fault ≡ Some (4, fields.Order) }
    ensures end_outside { fault_after 456 (unplaced xid_type (zeros 8)) ≡ Some (456, fields.Order) }
    ensures rows_outside { fault_after 456 (again write_rows_type 372 429)
        ≡ Some (456, fields.Order) }
    ensures format_inside { fault_after 429 (unplaced format_type (between 23 115))
        ≡ Some (429, fields.Order) }
    ensures end_after_rotation { fault_after 456 (rotation ++ unplaced xid_type (zeros 8))
        ≡ Some (495, fields.AfterRotate) }
    ensures too_long { fault_after 429 (header_bytes xid_type 1 2147483648 0 0)
        ≡ Some (429, fields.EventSize) }
    ensures longest { fault_after 429 (header_bytes xid_type 1 2147483647 0 0) ≡ None }
    ensures few_lengths { (seen_of 4 (unplaced format_type (between 23 111))).fault
        ≡ Some (4, fields.PostHeader) }
    ensures fewest_lengths { (seen_of 4 (unplaced format_type (between 23 112))).fault ≡ None }
{}
