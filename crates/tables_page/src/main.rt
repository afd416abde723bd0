#![tactic(auto)]
// Prints docs/TABLES.md: the four tables, plain and split, as the proved rules have them.
use names::Message;
use rules::{Entry, state};
use show::{number, space, text};

fn main() {
    text(b"# The tables, as the engine has them\n\nStates stand across and messages down. ");
    text(b"A cell says what a seat in that state does with the message: `to 11` moves it, ");
    text(b"`to 12, forget` moves it and ends it, `ignore` and `reply ..` leave it where it is, ");
    text(
        b"and `-` is Invalid State, refusal 14. This page is what the program `tables_page` prints.\n",
    );
    for role in [rules::COORDINATOR, rules::PARTICIPANT] {
        pages_of(role);
    }
}

fn pages_of(role: u8) {
    for way in [rules::RECEIVED, rules::SENT] {
        tables_of(role, way);
    }
}

fn tables_of(role: u8, way: u8) {
    for table in [rules::PLAIN, rules::SPLIT] {
        Page { role, way, table }.print();
    }
}

// What a role does with the messages of a way, plain or split.
#[derive(Clone, Copy, Debug, PartialEq, Eq)]
struct Page {
    role: u8,
    way: u8,
    table: u8,
}

impl Page {
    fn print(self) {
        self.heading();
        text(b"\n\n| message |");
        self.for_states(|s| self.column(s));
        text(b"\n|---|");
        self.for_states(|_| {
            text(b"---|");
        });
        text(b"\n");
        for message in Message::ALL {
            if rules::moves_message(self.role, self.way, message.number()) {
                self.row(message);
            }
        }
    }

    fn heading(self) {
        text(b"\n## ");
        match self.role {
            rules::COORDINATOR => text(b"Coordinator "),
            _ => text(b"Participant "),
        };
        match self.way {
            rules::SENT => text(b"sends, "),
            _ => text(b"receives, "),
        };
        match self.table {
            rules::SPLIT => text(b"split table"),
            _ => text(b"plain table"),
        };
    }

    // The role's states in the table, in order.
    fn for_states<F: FnMut(u8)>(self, mut visit: F)
        requires { F.IsAlwaysCallable visit }
    {
        for s in state::ACTIVE..=state::LAST {
            if rules::has_state(self.role, self.table, s) {
                visit(s);
            }
        }
    }

    fn column(self, s: u8) {
        space();
        number(usize::from(s));
        space();
        text(self.state_name(s));
        text(b" |");
    }

    fn state_name(self, s: u8) -> &'static [u8] {
        match (self.role, s) {
            (_, state::ACTIVE) => b"Active",
            (rules::COORDINATOR, state::CANCELING) => b"Canceling-Active",
            (_, state::CANCELING) => b"Canceling",
            (_, state::CANCELING_COMPLETING) => b"Canceling-Completing",
            (_, state::COMPLETING) => b"Completing",
            (_, state::COMPLETED) => b"Completed",
            (_, state::CLOSING) => b"Closing",
            (_, state::COMPENSATING) => b"Compensating",
            (_, state::FAILING) => b"Failing",
            (_, state::FAILING_COMPENSATING) => b"Failing-Compensating",
            (_, state::NOT_COMPLETING) => b"NotCompleting",
            (_, state::EXITING) => b"Exiting",
            (_, state::ENDED) => b"Ended",
            (rules::COORDINATOR, state::ENDED_FAILED) => b"Ended-Failed",
            (rules::COORDINATOR, state::ENDED_EXITED) => b"Ended-Exited",
            (rules::COORDINATOR, _) => b"Ended-NotCompleted",
            (_, state::ENDED_CANCELED) => b"Ended-Canceled",
            (_, state::ENDED_CLOSED) => b"Ended-Closed",
            (_, _) => b"Ended-Compensated",
        }
    }

    fn row(self, message: Message) {
        text(b"| ");
        text(message.name());
        text(b" |");
        let m = message.number();
        self.for_states(|s| cell(rules::entry_at(self.role, self.table, self.way, m, s)));
        text(b"\n");
    }
}

fn cell(e: Entry) {
    match e {
        Entry::Invalid => {
            text(b" - |");
        }
        Entry::Ignore => {
            text(b" ignore |");
        }
        Entry::Move(next) => {
            text(b" to ");
            number(usize::from(next));
            text(b" |");
        }
        Entry::Forget(next) => {
            text(b" to ");
            number(usize::from(next));
            text(b", forget |");
        }
        Entry::Reply(m) => {
            text(b" reply ");
            if let Ok(message) = Message::try_from(m) {
                text(message.name());
            }
            text(b" |");
        }
    }
}
