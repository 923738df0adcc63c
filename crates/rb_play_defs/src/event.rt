use rb_base::ClientOps;

/// An event at one site.
#[derive(Debug, Drop)]
pub enum SiteEvent {
    /// A client commits a transaction.
    Tx(ClientOps),
    /// The open epoch closes. If the flag is true, the next GCI begins.
    Close(bool),
    /// The message at this place of the Sent list reaches the event buffer.
    Deliver(u64),
    /// Each message that was never delivered, and whose sender has not failed since, reaches the
    /// event buffer, in the order of the Sent list.
    DeliverAll,
    /// The injector takes the closed epochs in order, and stops before the first that is not whole.
    /// It logs those that have something to log.
    Inject,
    /// A data node fails.
    Fail(u32),
    /// A data node restarts.
    Restart(u32),
    /// Each owner resends its unacknowledged messages.
    Resend,
    /// The injector stops and recovers its log. Its event buffer is empty afterwards, and each
    /// owner resends its unacknowledged messages, unless a group is lost.
    Injector,
}
