//! A row of `calls`.

ghost use Rattle.std.specs.Prelude.{◌≡◌};
ghost use Rattle.s10_rows.specs.CallRow.{StoredCall};

use std::marker::Model;

/// A row of `calls`: the arrival, the key, the day, and the bytes of the reply.
#[derive(Debug, Drop)]
pub struct CallRow {
    /// The arrival of the call, from 1.
    arrival: i64,
    /// The customer of the key.
    customer: i64,
    /// The request number of the key.
    number: i64,
    /// The day of the call.
    day: i64,
    /// The bytes of the reply's datagram.
    reply: Vec<u8>,
}

impl Model for CallRow {
    ghost use Rattle.s10_rows.specs.CallRow.{StoredCall};

    ghost Value = { StoredCall };

    ghost view = { λ c. record {
      arrival = c.arrival;
      customer = c.customer;
      number = c.number;
      day = c.day;
      reply = c.reply.items;
    } };
}

impl CallRow {
    /// Creates the row with these columns: the arrival from 1, the key of the call, its day, and
    /// the datagram of its reply.
    pub fn new(arrival: i64, customer: i64, number: i64, day: i64, reply: Vec<u8>) -> CallRow
        ensures { let row : StoredCall = record {
          arrival = arrival;
          customer = customer;
          number = number;
          day = day;
          reply = reply.items;
        } in result ≡ row }
    {
        CallRow {
            arrival,
            customer,
            number,
            day,
            reply,
        }
    }

    /// Returns the arrival of the call, from 1.
    pub fn arrival(&self) -> i64
        ensures { result ≡ self.now.arrival }
    {
        self.arrival
    }

    /// Returns the customer of the key.
    pub fn customer(&self) -> i64
        ensures { result ≡ self.now.customer }
    {
        self.customer
    }

    /// Returns the request number of the key.
    pub fn number(&self) -> i64
        ensures { result ≡ self.now.number }
    {
        self.number
    }

    /// Returns the day on which the call was executed.
    pub fn day(&self) -> i64
        ensures { result ≡ self.now.day }
    {
        self.day
    }

    /// Returns the bytes of the reply's datagram.
    pub fn reply(&self) -> &[u8]
        ensures { result.now ≡ self.now.reply }
    {
        &self.reply
    }
}
