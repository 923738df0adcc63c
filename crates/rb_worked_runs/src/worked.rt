ghost use Rattle.std.specs.Prelude.{◌≡◌, ◌∷◌, [], codes};
ghost use Rattle.rb_text_defs.specs.declared.script.ScriptKind.TheVariants as ScriptKind;
ghost use Rattle.rb_text_defs.specs.Report.{text_of_lines};
ghost use Rattle.rb_worked_runs.specs.Worked.{report_of_lines, the_first_path_script, the_first_path_report, empty_epochs_script, empty_epochs_report, refused_transactions_script, refused_transactions_report, order_and_repeats_script, order_and_repeats_report, lost_first_script, lost_first_report, two_nodes_script, two_nodes_report, takeover_script, takeover_report, lost_group_script, lost_group_report, resend_script, resend_report, return_script, return_report, cycle_script, cycle_report, rotation_script, rotation_report, injector_script, injector_report, are_refused};

/// Two inserts in one epoch, which is logged.
pub fn the_first_path()
    ensures { report_of_lines the_first_path_script ≡ text_of_lines the_first_path_report }
{}

/// Two epochs with empty epochs between them.
pub fn empty_epochs()
    ensures { report_of_lines empty_epochs_script ≡ text_of_lines empty_epochs_report }
{}

/// Transactions that name a row twice, insert a key that is present, or change a key that is
/// absent.
pub fn refused_transactions()
    ensures { report_of_lines refused_transactions_script
        ≡ text_of_lines refused_transactions_report }
{}

/// Messages that are delivered out of order and repeatedly, and a delivery of a place that has no
/// message.
pub fn order_and_repeats()
    ensures { report_of_lines order_and_repeats_script ≡ text_of_lines order_and_repeats_report }
{}

/// An epoch that is delivered before any message of the epoch before it, and before all of them.
pub fn lost_first()
    ensures { report_of_lines lost_first_script ≡ text_of_lines lost_first_report }
{}

/// A group of two nodes, which share the keys.
pub fn two_nodes()
    ensures { report_of_lines two_nodes_script ≡ text_of_lines two_nodes_report }
{}

/// A node fails during an open epoch, and the other node of its group takes over its bucket.
pub fn takeover()
    ensures { report_of_lines takeover_script ≡ text_of_lines takeover_report }
{}

/// A node fails before the other node of its group covers.
pub fn lost_group()
    ensures { report_of_lines lost_group_script ≡ text_of_lines lost_group_report }
{}

/// Owners resend the messages that are not acknowledged.
pub fn resend()
    ensures { report_of_lines resend_script ≡ text_of_lines resend_report }
{}

/// A node fails and restarts. Its bucket returns to it once it covers, and then the other node may
/// fail.
pub fn return_home()
    ensures { report_of_lines return_script ≡ text_of_lines return_report }
{}

/// Four nodes fail one after the other, and each time the next node in cyclic order takes over.
pub fn cyclic_takeovers()
    ensures { report_of_lines cycle_script ≡ text_of_lines cycle_report }
{}

/// A log of two files: the first file is rotated when it reaches the limit.
pub fn rotation()
    ensures { report_of_lines rotation_script ≡ text_of_lines rotation_report }
{}

/// An injector that stops after an empty epoch, and afterwards expects the epoch after the last
/// logged one.
pub fn injector()
    ensures { report_of_lines injector_script ≡ text_of_lines injector_report }
{}

/// Scripts that are refused, each because of its first bad line.
pub fn refused_scripts()
    ensures no_form { are_refused (codes "frob" ∷ []) 1 ScriptKind.Syntax }
    ensures no_table { are_refused (codes "tx A ins t 1 1" ∷ []) 1 ScriptKind.Setup }
    ensures great_number { are_refused
        (codes "deliver A 18446744073709551616" ∷ []) 1 ScriptKind.Syntax }
    ensures late_table { are_refused
        (codes "table t num" ∷ codes "epoch A" ∷ codes "table u num" ∷ []) 3 ScriptKind.Setup }
    ensures first_bad_line { are_refused
        (codes "table t num" ∷ codes "table t num" ∷ codes "frob" ∷ []) 2 ScriptKind.Setup }
{}
