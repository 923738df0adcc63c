ghost use Rattle.std.specs.Prelude.{◌≡◌, [], ◌∷◌, ◌++◌, length, drop, map};
ghost use Rattle.rb_base.specs.declared.site.SiteId.TheVariants.{A};
ghost use Rattle.rb_base.specs.declared.schema.Column.TheVariants.{Num, Text};
ghost use Rattle.rb_log_defs.specs.Table.{all_metadata};
ghost use Rattle.rb_log_defs.specs.Rows.{row_image};
ghost use Rattle.rb_log_defs.specs.Epoch.{epoch_bytes};
ghost use Rattle.rb_log_defs.specs.File.{binlog_files, index_rows};
ghost use Rattle.rb_log_defs.specs.Index.{index_file, position_after};
ghost use Rattle.rb_log_defs.specs.Worked.{first_path, following, places_of, around_empty_epochs, text_ends, text_row, start_bytes, first_path_bytes, first_path_index, rotate_bytes, short_text_image, long_text_image};

/// A log without an epoch is one file of 115 bytes; its index is one closed gate.
pub fn an_empty_log()
    ensures file { binlog_files A 1048576 [] ≡ start_bytes ∷ [] }
    ensures index { index_file (index_rows A 1048576 []) ≡ 0 ∷ [] }
{}

/// One epoch of two inserts gives a file of 456 bytes and an index file of 66 bytes.
pub fn the_first_path()
    ensures file { binlog_files A 1048576 (first_path ∷ [])
        ≡ (start_bytes ++ first_path_bytes) ∷ [] }
    ensures index { index_file (index_rows A 1048576 (first_path ∷ [])) ≡ first_path_index }
{}

/// Two epochs with empty epochs between them: their places in the binlog, and the positions at
/// which the log continues before them, between them and after them.
pub fn empty_epochs()
    ensures places { places_of (index_rows A 1048576 around_empty_epochs)
        ≡ (1, 115, 399) ∷ (1, 399, 683) ∷ [] }
    ensures gcis { map (λ row. row.gci) (index_rows A 1048576 around_empty_epochs) ≡ 1 ∷ 2 ∷ [] }
    ensures between { position_after (index_rows A 1048576 around_empty_epochs) 4294967298
        ≡ (1, 399) }
    ensures before { position_after (index_rows A 1048576 around_empty_epochs) 0 ≡ (1, 4) }
{}

/// The same epochs with rotation.
///
/// With a limit of 512 bytes the second epoch passes the limit: file 1 ends with a rotate event and
/// file 2 begins. A file is rotated when its length is equal to the limit, and not when it is one
/// byte shorter.
pub fn rotation()
    ensures files { following 683 (binlog_files A 512 around_empty_epochs)
        ≡ rotate_bytes ∷ [] ∷ [] }
    ensures exactly { following 683 (binlog_files A 683 around_empty_epochs)
        ≡ rotate_bytes ∷ [] ∷ [] }
    ensures below { following 683 (binlog_files A 684 around_empty_epochs) ≡ [] ∷ [] }
    ensures second { following 0 (drop 1 (binlog_files A 512 around_empty_epochs))
        ≡ start_bytes ∷ [] }
    ensures places { places_of (index_rows A 512 around_empty_epochs)
        ≡ (1, 115, 399) ∷ (1, 399, 683) ∷ [] }
{}

/// Texts whose length takes one byte or two, and the greatest key: the row images, the metadata and
/// the length of the file.
pub fn the_ends_of_texts()
    ensures short { row_image (Num ∷ Text 255 ∷ []) text_row ≡ short_text_image }
    ensures long { row_image (Num ∷ Text 256 ∷ []) text_row ≡ long_text_image }
    ensures short_metadata { all_metadata (Num ∷ Text 255 ∷ []) ≡ 255 ∷ 0 ∷ [] }
    ensures long_metadata { all_metadata (Num ∷ Text 256 ∷ []) ≡ 0 ∷ 1 ∷ [] }
    ensures size { length (start_bytes ++ epoch_bytes text_ends 115) ≡ 488 }
{}
