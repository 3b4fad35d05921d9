use jass_base::Budget;

/// What a line asks of a desk.
#[derive(Clone, Copy)]
pub enum Command<'a> {
    /// A new session of this name, for `k` documents. The text has the mentions of its query.
    Open {
        name: &'a str,
        k: u32,
        mentions: &'a str,
    },
    /// A budget more for the session of this name.
    Grant {
        name: &'a str,
        budget: Budget,
    },
    /// The answer of the session.
    Top {
        name: &'a str,
    },
    /// The report of the session.
    Why {
        name: &'a str,
    },
    /// The end of the session.
    Close {
        name: &'a str,
    },
    /// The end of all lines.
    End,
}
