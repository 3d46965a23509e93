ghost use Rattle.std.specs.Prelude.{◌≡◌, ◌&&◌, not};
ghost use Rattle.txn_post.specs.Mail.{delivering, just_sent, keeping, losing, refusing, taking};

use txn_kv::Reply;

/// What became of a request that was sent.
#[derive(Debug, Drop)]
pub struct Letter {
    /// The store handled it.
    pub served: bool,
    /// The store was too busy to look at it. It is never handled then.
    pub refused: bool,
    /// Its client was neither told a reply nor that none will come.
    pub awaited: bool,
    /// The reply of the store, until the client takes it.
    pub kept: Option<Reply>,
}

impl Letter {
    /// That of a request which was just sent.
    pub fn new() -> Letter
        ensures { result ≡ just_sent }
    {
        Letter {
            served: false,
            refused: false,
            awaited: true,
            kept: None,
        }
    }
    /// The store may handle the request: it neither did nor was too busy to.
    pub(crate) fn can_be_served(&self) -> bool
        ensures { result ≡ (not self.now.served && not self.now.refused) }
    {
        !self.served && !self.refused
    }

    /// The store handled the request, and its reply is kept.
    pub(crate) fn keep(&mut self, reply: Reply)
        ensures { self.new ≡ keeping reply self.old }
    {
        self.served = true;
        self.kept = Some(reply);
    }

    /// The store handled the request, and the client takes the reply.
    pub(crate) fn deliver(&mut self)
        ensures { self.new ≡ delivering self.old }
    {
        self.served = true;
        self.awaited = false;
    }

    /// The client takes the reply that is kept, if one is.
    pub(crate) fn take_kept(&mut self) -> Option<Reply>
        ensures reply { result ≡ self.old.kept }
        ensures taken { self.new ≡ taking self.old }
    {
        let kept = self.kept.take();
        if kept.is_some() {
            self.awaited = false;
        }
        kept
    }

    /// The store is too busy to look at the request, and the client is told so.
    pub(crate) fn refuse(&mut self)
        ensures { self.new ≡ refusing self.old }
    {
        self.refused = true;
        self.awaited = false;
    }

    /// The client is told that no reply will come.
    pub(crate) fn lose(&mut self)
        ensures { self.new ≡ losing self.old }
    {
        self.awaited = false;
        self.kept = None;
    }
}
