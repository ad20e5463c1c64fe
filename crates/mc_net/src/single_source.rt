//! A source in memory for a single line, which it keeps after it was served.
ghost use Rattle.std.specs.Prelude.{◌≡◌, IfSome};
ghost use Rattle.std.specs.Option.{ForSome};
ghost use Rattle.mc_transport.specs.Place.{unbegun};

use crate::connection_source::{Accept, ConnectionSource};
use mc_transport::Transport;
use std::snapshot::Snapshot;

/// A served line with its result.
#[derive(Drop)]
pub struct ServedLine<L> {
    pub line: L,
    /// Number of commands.
    pub commands: u64,
    /// Whether it failed.
    pub broke: bool,
}

/// A served line, and its state when it was accepted.
#[derive(Drop)]
pub struct ReturnedLine<L> {
    begin: Snapshot<L>,
    served: ServedLine<L>,
}

impl<L: Drop> ReturnedLine<L> {
    /// Returns the line in the state in which it was returned.
    fn into_served(self) -> ServedLine<L>
        ensures { result ≡ self.served }
    {
        let ReturnedLine { served, .. } = self;
        served
    }
}

/// A source for one line, which waits, is being served, or was returned.
#[derive(Drop)]
pub struct SingleSource<L: Transport> {
    /// A token of the line's history.
    history: Snapshot<L::Warrant>,
    waits: Option<L>,
    /// The line being served, in the state in which it was accepted.
    out: Option<Snapshot<L>>,
    back: Option<ReturnedLine<L>>,
    /// `accept` has returned `Over`.
    over: bool,
    // The line that waits has not begun.
    ghost new: { ForSome waits (λ line. L.place line ≡ unbegun (L.Warrant.name history.value)) },
}

impl<L: Transport + Drop> SingleSource<L> {
    ghost use Rattle.mc_net.specs.One.{IsBack, flow_of, waits};

    /// A source with this line of the token's history, which has not begun.
    pub fn new(line: L, history: &L::Warrant) -> SingleSource<L>
        requires { L.place line ≡ unbegun (L.Warrant.name history.now) }
        ensures flow { flow_of (λ line. L.sight line) result ≡
            waits (L.sight line) }
        ensures history { L.Warrant.name result.history.value ≡ L.Warrant.name history.now }
    {
        SingleSource {
            history: Snapshot::of(history),
            waits: Some(line),
            out: None,
            back: None,
            over: false,
        }
    }

    /// The line, if it was served.
    pub fn served(self) -> Option<ServedLine<L>>
        ensures { IfSome result (λ one.
            IsBack (flow_of (λ line. L.sight line) self)
            (L.sight one.line) one.commands one.broke) }
    {
        let SingleSource { back, .. } = self;
        match back {
            Some(returned) => Some(returned.into_served()),
            None => None,
        }
    }
}

impl<L: Transport + Drop> ConnectionSource for SingleSource<L> {
    ghost use Rattle.mc_net.specs.One.{flow_of};

    type Transport = L;

    ghost flow = { λ source.
        flow_of (λ line. L.sight line) source };

    ghost history = { λ source. L.Warrant.name source.history.value };

    fn accept(&mut self) -> Accept<L> {
        if self.back.is_some() || self.out.is_some() {
            self.over = true;
            return Accept::Over;
        }
        let Some(line) = self.waits.take() else {
            self.over = true;
            return Accept::Over;
        };
        self.out = Some(Snapshot::of(&line));
        Accept::Came(line)
    }

    fn give_up(&mut self, _line: &mut L) -> bool {
        false
    }

    fn give_back(&mut self, line: L, commands: u64, broke: bool) {
        if self.back.is_some() {
            return;
        }
        let Some(begin) = self.out.take() else {
            return;
        };
        let served = ServedLine {
            line,
            commands,
            broke,
        };
        self.back = Some(ReturnedLine { begin, served });
    }
}
