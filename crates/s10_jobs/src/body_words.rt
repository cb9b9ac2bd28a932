//! Reads the body of a request from the words of a command line.

ghost use Rattle.std.specs.Prelude.{◌≡◌, IfOk, IfErr};
ghost use Rattle.s10_core.specs.Letters.{letters_of};
ghost use Rattle.s10_core.specs.Id.{SpellsLoosely};
ghost use Rattle.s10_jobs.specs.Questions.{WordsAsk, IsPairRefusal, IsIdRefusal, IsBodyRefusal};
ghost use Rattle.s10_jobs.specs.declared.body_words.BodyWords.TheVariants.{Draw};

use crate::parts::{read_country, read_service};
use crate::refusal::Refusal;
use s10_core::{Country, Id, Serial, Service};
use s10_wire::{Body, Count};

/// The body of a request, with its texts as they were given.
#[derive(Clone, Copy, Debug, PartialEq, Eq)]
pub enum BodyWords<'a> {
    /// A grant of the serials `first` to `last`.
    Grant {
        holder: u32,
        service: &'a str,
        country: &'a str,
        first: Serial,
        last: Serial,
    },
    /// A draw of one identifier.
    Draw {
        service: &'a str,
        country: &'a str,
    },
    /// A draw of `count` identifiers, 1 to 16.
    DrawMany {
        service: &'a str,
        country: &'a str,
        count: Count,
    },
    /// A withdrawal of the range with this number.
    Withdraw {
        range: u32,
    },
    /// A void of an identifier.
    Void {
        id: &'a str,
    },
    /// A query of an identifier.
    Query {
        id: &'a str,
    },
}

impl BodyWords<'_> {
    ghost use Rattle.std.specs.Prelude.{IfOk, IfErr};
    ghost use Rattle.s10_jobs.specs.Questions.{WordsAsk, IsBodyRefusal};

    /// Reads the texts: the service before the country, and an identifier as on a label.
    ///
    /// # Errors
    ///
    /// The first text that cannot be read:
    ///
    /// - `Service` or `Country` if it is not two capital letters.
    /// - `Text` if an identifier is refused, with its first fault.
    pub fn read(&self) -> Result<Body, Refusal>
        ensures ok { IfOk result (WordsAsk self.now) }
        ensures refused { IfErr result (IsBodyRefusal self.now) }
    {
        match *self {
            BodyWords::Grant {
                holder,
                service,
                country,
                first,
                last,
            } => {
                let (service, country) = read_pair(service, country)?;
                Ok(Body::Grant {
                    holder,
                    service,
                    country,
                    first,
                    last,
                })
            }
            BodyWords::Draw { service, country } => read_draw(service, country),
            BodyWords::DrawMany {
                service,
                country,
                count,
            } => {
                let (service, country) = read_pair(service, country)?;
                Ok(Body::DrawMany {
                    service,
                    country,
                    count,
                })
            }
            BodyWords::Withdraw { range } => Ok(Body::Withdraw { range }),
            BodyWords::Void { id } => Ok(Body::Void { id: read_id(id)? }),
            BodyWords::Query { id } => Ok(Body::Query { id: read_id(id)? }),
        }
    }
}

fn read_pair(service: &str, country: &str) -> Result<(Service, Country), Refusal>
    ensures ok { IfOk result (λ pair. (letters_of pair.0 ≡ service.now)
        × (letters_of pair.1 ≡ country.now)) }
    ensures refused { IfErr result (IsPairRefusal service.now country.now) }
{
    let Some(service) = read_service(service.as_bytes()) else {
        return Err(Refusal::Service);
    };
    let Some(country) = read_country(country.as_bytes()) else {
        return Err(Refusal::Country);
    };
    Ok((service, country))
}

fn read_draw(service: &str, country: &str) -> Result<Body, Refusal>
    ensures ok { IfOk result (WordsAsk (Draw service.entry country.entry)) }
    ensures refused { IfErr result (IsBodyRefusal (Draw service.entry country.entry)) }
{
    let (service, country) = read_pair(service, country)?;
    Ok(Body::Draw { service, country })
}

fn read_id(text: &str) -> Result<Id, Refusal>
    ensures ok { IfOk result (SpellsLoosely text.now) }
    ensures refused { IfErr result (IsIdRefusal text.now) }
{
    match Id::read_label(text.as_bytes()) {
        Ok(id) => Ok(id),
        Err(fault) => Err(Refusal::Text(fault)),
    }
}
