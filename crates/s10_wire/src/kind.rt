//! The kinds of requests, with their codes and lengths (docs/DATAGRAMS.md).

ghost use Rattle.std.specs.Prelude.{◌≡◌, ◌≤◌, length};
ghost use Rattle.s10_wire.specs.Kind.{kind_of, code_of, version_of, kind_of_codes, request_length};
ghost use Rattle.s10_wire.specs.Kind.{done_length, is_reply_long};

use crate::body::Body;

/// The kind of a request: what its body asks, without the fields.
#[derive(Clone, Copy, Debug, PartialEq, Eq)]
pub enum Kind {
    Grant,
    Draw,
    Void,
    Query,
    DrawMany,
    Withdraw,
}

impl Kind {
    /// Returns the kind of a body.
    pub fn of(body: &Body) -> Kind
        ensures { result ≡ kind_of body.now }
    {
        match body {
            Body::Grant { .. } => Kind::Grant,
            Body::Draw { .. } => Kind::Draw,
            Body::Void { .. } => Kind::Void,
            Body::Query { .. } => Kind::Query,
            Body::DrawMany { .. } => Kind::DrawMany,
            Body::Withdraw { .. } => Kind::Withdraw,
        }
    }

    /// Returns the kind whose requests have this version byte and this kind byte, if there is one.
    pub fn of_codes(version: u8, code: u8) -> Option<Kind>
        ensures { result ≡ kind_of_codes version code }
    {
        match (version, code) {
            (1, 1) => Some(Kind::Grant),
            (1, 2) => Some(Kind::Draw),
            (1, 3) => Some(Kind::Void),
            (1, 4) => Some(Kind::Query),
            (2, 5) => Some(Kind::DrawMany),
            (2, 6) => Some(Kind::Withdraw),
            _ => None,
        }
    }

    /// Returns the kind byte of a request, 1 to 6.
    pub fn code(self) -> u8
        ensures { result ≡ code_of self }
    {
        match self {
            Kind::Grant => 1,
            Kind::Draw => 2,
            Kind::Void => 3,
            Kind::Query => 4,
            Kind::DrawMany => 5,
            Kind::Withdraw => 6,
        }
    }

    /// Returns the version byte of a request, 1 or 2.
    pub fn version(self) -> u8
        ensures { result ≡ version_of self }
    {
        match self {
            Kind::Grant | Kind::Draw | Kind::Void | Kind::Query => 1,
            Kind::DrawMany | Kind::Withdraw => 2,
        }
    }

    /// Returns the length of a request, in bytes.
    pub fn request_length(self) -> usize
        ensures { result ≡ request_length self }
    {
        match self {
            Kind::Grant => 28,
            Kind::Draw | Kind::Withdraw => 16,
            Kind::Void | Kind::Query => 25,
            Kind::DrawMany => 17,
        }
    }

    // Returns the length of a Done reply that begins with these bytes, in bytes.
    fn done_length(self, bytes: &[u8]) -> usize
        requires { 17 ≤ length bytes.now }
        ensures { result ≡ done_length self bytes.now }
    {
        match self {
            Kind::Grant => 33,
            Kind::Draw => 34,
            Kind::Void => 26,
            Kind::Query => 31,
            Kind::DrawMany => 22 + 13 * bytes[16] as usize,
            Kind::Withdraw => 17,
        }
    }

    /// Returns whether the bytes have the length of a reply with their outcome byte.
    pub fn is_reply_long(self, bytes: &[u8]) -> bool
        ensures { result ≡ is_reply_long self bytes.now }
    {
        let at = self.request_length();
        if bytes.len() <= at {
            return false;
        }
        if bytes[at] == 0 {
            bytes.len() == self.done_length(bytes)
        } else {
            bytes.len() == at + 1
        }
    }
}
