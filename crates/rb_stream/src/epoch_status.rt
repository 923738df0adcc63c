ghost use Rattle.std.specs.Prelude.{◌≡◌, ℕ, [], ◌∷◌, ◌++◌, List, map};
ghost use Rattle.rb_read_defs.specs.declared.answers.StatusRow.{StatusRow};

use rb_read_defs::StatusRow;

/// The apply-status rows of an epoch so far: at most one row of the server of its own event, and at
/// most one other row.
#[derive(Clone, Copy, Debug)]
pub(crate) struct EpochStatus {
    pub(crate) own: Option<StatusRow>,
    pub(crate) other: Option<StatusRow>,
}

impl EpochStatus {
    ghost use Rattle.rb_stream.specs.EpochStatus.{HoldsStatus, HoldsStatusOrRepeats, status_with};

    /// Returns the value of an epoch that has no such row.
    pub(crate) fn nothing() -> EpochStatus
        ensures { HoldsStatus result [] }
    {
        EpochStatus {
            own: None,
            other: None,
        }
    }

    /// Returns these rows together with the rows of one more event, which this server wrote.
    /// Returns `None` if there are then two own rows or two others.
    pub(crate) fn with_rows(self, server: u32, rows: &[StatusRow]) -> Option<EpochStatus>
        ensures { (before : List (ℕ × StatusRow)) → HoldsStatus self before →
            HoldsStatusOrRepeats result (map (λ row. (server, row)) rows.now ++ before) }
    {
        let mut epoch_status = self;
        for row in rows {
            epoch_status = epoch_status.with_row(server, *row)?;
        }
        Some(epoch_status)
    }

    /// Returns these rows together with one more. Returns `None` if a row of its kind is already
    /// there.
    fn with_row(self, server: u32, row: StatusRow) -> Option<EpochStatus>
        ensures { result ≡ status_with self (server, row) }
    {
        let place = if row.server == server {
            self.own
        } else {
            self.other
        };
        if place.is_some() {
            return None;
        }
        Some(if row.server == server {
            EpochStatus {
                own: Some(row),
                other: self.other,
            }
        } else {
            EpochStatus {
                own: self.own,
                other: Some(row),
            }
        })
    }
}
