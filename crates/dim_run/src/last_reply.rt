//! The last reply of a gate to a thread, which only contracts see.
ghost use Rattle.std.specs.Prelude.{◌≡◌, None, Some};

use dim_rag::Reply;
use http_server::Log;
use std::marker::Model;

/// The last reply, if there was one. A contract sees it; at run time nothing is kept of it.
///
/// A `Log` is a list that only proofs read: it has no bytes, and its calls do nothing. It is one of
/// pairs; the second of each is nothing here.
#[derive(Drop)]
pub struct LastReply {
    replies: Log<Reply, ()>,
}

impl Model for LastReply {
    ghost use Rattle.std.specs.Prelude.{Option, None, map};
    ghost use Rattle.std.specs.List.{last_or};
    ghost use Rattle.dim_rag.specs.declared.command.Reply.{Reply};

    ghost Value = { Option Reply };

    ghost view = { λ r. last_or None (map (λ p. p.0) r.replies.items) };
}

impl LastReply {
    /// There was none.
    pub fn none() -> LastReply
        ensures { result ≡ None }
    {
        LastReply {
            replies: Log::new(),
        }
    }

    /// From now on it is this one.
    #[tactic(auto, using(crate::proofs::Newest::last_pushed))]
    pub fn note(&mut self, reply: &Reply)
        ensures { self.new ≡ Some reply.now }
    {
        self.replies = self.replies.and(reply, &());
    }
}
