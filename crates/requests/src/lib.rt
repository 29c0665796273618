// The record of kind 4, by which a repository asks a coordinator for a message.
#![tactic(auto)]

ghost use Rattle.std.specs.Prelude.{◌≡◌, ◌≤◌, length};
ghost use Rattle.model.specs.Bytes.{write_at};
ghost use Rattle.model.specs.Exchange.{request_bytes, request_in};
ghost use Rattle.requests.specs.Asking.{asked};

// What follows the record's length field has so many bytes.
const LENGTH: u64 = 17;

const KIND: u8 = 4;

// Asks for the message from a prev up to a clock stamp.
#[derive(Clone, Copy, PartialEq, Eq, Debug)]
pub struct Request {
    pub from: u64,
    pub to: u64,
}

impl Request {
    // The request at the buffer's front. Crate exchange has tested that its 19 bytes are there before it calls.
    pub fn write(self, buffer: &mut [u8])
        requires { 19 ≤ length buffer.old }
        ensures { buffer.new ≡ write_at 0 (request_bytes self.«from» self.to) buffer.old }
    {
        fields::put_be(buffer, 0, 2, LENGTH);
        fields::put_be(buffer, 2, 1, KIND as u64);
        fields::put_be(buffer, 3, 8, self.from);
        fields::put_be(buffer, 11, 8, self.to);
    }

    // One whole request and nothing else.
    pub fn read(bytes: &[u8]) -> Option<Request>
        ensures { result ≡ asked (request_in bytes.now) }
    {
        if bytes.len() != 19 {
            return None;
        }
        if fields::get_be(bytes, 0, 2) != LENGTH {
            return None;
        }
        if bytes[2] != KIND {
            return None;
        }
        let from = fields::get_be(bytes, 3, 8);
        let to = fields::get_be(bytes, 11, 8);
        Some(Request { from, to })
    }
}
