//! Evidence that the requests and the replies of a channel carry.
ghost use Rattle.std.specs.Prelude.{◌≡◌};

use crate::reply::Reply;
use crate::request::Request;
use crate::stamped::Stamped;
use rtrb::Protocol;
use std::marker::PhantomData;

/// What a request or a reply carries, for its receiver to rely on. Its values are to take no bytes.
pub trait Token {
    ghost use Rattle.std.specs.Prelude.{List};
    ghost use Rattle.mc_ring.specs.declared.request.Request.{Request};
    ghost use Rattle.mc_ring.specs.Reply.{Shown};
    ghost use Rattle.mc_ring.specs.Route.{Name, Route};

    // The history that it is of.
    ghost name: { Self → Name };

    // On a channel of this route the request may follow these, with this token.
    ghost may_send: { Route → List Request → Request → Self → Type 0 };

    // On a channel of this route the reply may follow these, with this token.
    ghost may_give: { Route → List Shown → Shown → Self → Type 0 };
}

/// Of no history: any request and any reply may follow.
impl Token for () {
    ghost use Rattle.mc_ring.specs.Route.{no_history};

    ghost name = { λ token. no_history };

    ghost may_send = { λ route before request token. Unit {0} };

    ghost may_give = { λ route before reply token. Unit {0} };
}

/// Makes the tokens with which channels begin, all of one history.
pub trait Source<T: Token> {
    ghost use Rattle.mc_ring.specs.Route.{Name};

    ghost name: { Self → Name };

    /// One token more.
    fn token(&mut self) -> T
        ensures name { T.name result ≡ Self.name self.old }
        ensures same { Self.name self.new ≡ Self.name self.old };
}

impl Source<()> for () {
    ghost use Rattle.mc_ring.specs.Route.{no_history};

    ghost name = { λ source. no_history };

    fn token(&mut self) {}
}

/// The rule of a ring of requests.
pub struct Requests<T>(PhantomData<T>);

impl<T: Token> Protocol<Stamped<Request, T>> for Requests<T> {
    ghost use Rattle.mc_ring.specs.Stamps.{Follows};

    ghost allows = { λ before next. Follows T.name T.may_send (λ request. request) before next };
}

/// The rule of a ring of replies.
pub struct Replies<T>(PhantomData<T>);

impl<T: Token> Protocol<Stamped<Reply, T>> for Replies<T> {
    ghost use Rattle.mc_ring.specs.Reply.{shown};
    ghost use Rattle.mc_ring.specs.Stamps.{Follows};

    ghost allows = { λ before next. Follows T.name T.may_give shown before next };
}
