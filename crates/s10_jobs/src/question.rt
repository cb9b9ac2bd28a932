//! Reads a request from the words of a command line.

use crate::asker::Asker;
use crate::body_words::BodyWords;
use crate::refusal::Refusal;
use crate::tries::Tries;
use s10_link::Peer;
use s10_wire::Body;

/// A request to a server, with its texts as they were given.
#[derive(Clone, Copy, Debug, PartialEq, Eq)]
pub struct Question<'a> {
    /// The address of the server, as `127.0.0.1:4711`.
    pub to: &'a str,
    /// What gives the request its number.
    pub asker: Asker<'a>,
    /// The body of the request.
    pub body: BodyWords<'a>,
    /// The maximum number of tries.
    pub tries: Tries,
}

impl Question<'_> {
    ghost use Rattle.std.specs.Prelude.{IfOk, IfErr};
    ghost use Rattle.s10_link.specs.Peer.{SpellsPeer};
    ghost use Rattle.s10_jobs.specs.Questions.{WordsAsk, IsQuestionRefusal};

    /// Reads the texts: the address of the server before those of the body.
    ///
    /// # Errors
    ///
    /// The first text that cannot be read:
    ///
    /// - `Peer` if the address of the server is invalid.
    /// - `Service`, `Country` or `Text` if a text of the body is invalid.
    pub fn read(&self) -> Result<(Peer, Body), Refusal>
        ensures ok { IfOk result (λ read. SpellsPeer self.now.to.now read.0
            × WordsAsk self.now.body read.1) }
        ensures refused { IfErr result (IsQuestionRefusal self.now.to.now self.now.body) }
    {
        let Some(to) = Peer::read(self.to.as_bytes()) else {
            return Err(Refusal::Peer);
        };
        let body = self.body.read()?;
        Ok((to, body))
    }
}
