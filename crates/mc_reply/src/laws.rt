//! Laws of all replies.
ghost use Rattle.mc_reply.specs.TextLaws.{IsEmptyOrLoud, OrdersFlags, ShowsServerByStats};

/// The reply to a quiet command is empty, or equal to the reply to the same command without `q`.
pub fn quiet_replies_are_empty_or_loud()
    ensures { IsEmptyOrLoud }
{}

/// Only the reply to `stats` depends on the server's statistics.
pub fn only_stats_shows_the_server()
    ensures { ShowsServerByStats }
{}

/// Another order of the flags changes only the order of the returned ones.
pub fn flags_change_their_order_alone()
    ensures { OrdersFlags }
{}
