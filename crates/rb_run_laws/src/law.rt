ghost use Rattle.std.specs.Prelude.{◌≡◌, ◌<◌, ◌^◌, ℕ, List, length, All, Ok};
ghost use Rattle.rb_base.specs.declared.site.SiteId.{SiteId};
ghost use Rattle.rb_base.specs.declared.site.SiteId.TheVariants.{A};
ghost use Rattle.rb_base.specs.declared.body.EpochBody.{EpochBody};
ghost use Rattle.rb_log_defs.specs.File.{binlog_files};
ghost use Rattle.rb_journal_defs.specs.Body.{completed_bodies};
ghost use Rattle.rb_text_defs.specs.declared.script.Script.{Script};
ghost use Rattle.rb_text_defs.specs.Script.{script_of};
ghost use Rattle.rb_text_defs.specs.Legal.{IsLegal};
ghost use Rattle.rb_play_defs.specs.Play.{shape_of, play, log_of, files_of};
ghost use Rattle.rb_read_defs.specs.Readable.{IsReadable};
ghost use Rattle.rb_run_laws.specs.Files.{AreReadAs};

/// Each epoch that a run of a legal script writes is readable.
///
/// Its numbers have room in the fields of the log. Its tables are those that its changes name, in
/// the order of their ids. Its changes fit these tables and have the key of their rows. No event is
/// longer than a reader accepts. Any text that parses as a script is a legal script.
pub fn written_epochs_are_readable()
    ensures legal { (script : Script) → IsLegal script → All IsReadable (log_of script) }
    ensures read { (bytes : List ℕ) (script : Script) → script_of bytes ≡ Ok script →
        All IsReadable (log_of script) }
{}

/// Each epoch that a run of a legal script completes is readable, whether or not the injector has
/// logged it.
pub fn completed_epochs_are_readable()
    ensures { (script : Script) → IsLegal script →
        All IsReadable (completed_bodies (shape_of script.setup A)
        (play script).sites.a.journal) }
{}

/// A log of readable epochs is read as it was written, whatever the limit for the rotation of its
/// files.
///
/// Each file is read to its end without a bad event: a format description, the file's epochs and,
/// except for the last file, a rotation to the next file. The epochs of all files together are the
/// written ones, in order.
///
/// Positions in a file have 32 bits, so each file must be shorter than 2^32 bytes. There must be
/// fewer than 2^32 epochs. The log of each script's run meets both conditions.
pub fn a_written_log_is_read_back()
    ensures files { (site : SiteId) (limit : ℕ) (bodies : List EpochBody) → All IsReadable bodies →
        length bodies < 2 ^ 32 →
        All (λ file. length file < 2 ^ 32) (binlog_files site limit bodies) →
        AreReadAs site 1 bodies (binlog_files site limit bodies) }
    ensures legal { (script : Script) → IsLegal script →
        AreReadAs A 1 (log_of script) (files_of script) }
    ensures read { (bytes : List ℕ) (script : Script) → script_of bytes ≡ Ok script →
        AreReadAs A 1 (log_of script) (files_of script) }
{}
