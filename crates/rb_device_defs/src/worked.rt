ghost use Rattle.std.specs.Prelude.{[], ◌∷◌};
ghost use Rattle.rb_base.specs.declared.body.IndexRow.{IndexRow};
ghost use Rattle.rb_log_defs.specs.Worked.{first_path_index};
ghost use Rattle.rb_device_defs.specs.Index.{IsIndexImage};
ghost use Rattle.rb_device_defs.specs.Worked.{first_path_rows, first_record, opened_index};

/// The index file of the worked example, 66 bytes, is an image of its one row. It is not an image
/// without a row or with two rows.
pub fn an_index_of_one_row()
    ensures one { IsIndexImage first_path_rows first_path_index }
    ensures none { IsIndexImage [] first_path_index → ⊥ }
    ensures two { (first second : IndexRow) →
        IsIndexImage (first ∷ second ∷ []) first_path_index → ⊥ }
{}

/// The same file with an open gate at its end is the same image: no record follows that gate.
pub fn an_open_last_gate()
    ensures one { IsIndexImage first_path_rows opened_index }
    ensures none { IsIndexImage [] opened_index → ⊥ }
    ensures two { (first second : IndexRow) →
        IsIndexImage (first ∷ second ∷ []) opened_index → ⊥ }
{}

/// The same file cut after the record, 65 bytes, is an image without a row: a record counts only if
/// a byte follows it.
pub fn no_byte_after_the_record()
    ensures none { IsIndexImage [] first_record }
    ensures one { IsIndexImage first_path_rows first_record → ⊥ }
{}
