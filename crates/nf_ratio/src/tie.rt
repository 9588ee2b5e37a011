// The places that tie: those of the candidates so far whose ratio is the least.
ghost use Rattle.std.specs.Prelude.{◌≡◌, ◌<◌, length};
ghost use Rattle.nf_ratio.specs.Ties.{Compares, IsOffered, IsOfferedIf};

use nf_frac::Frac;
use std::cmp::Ordering;

// How many places tie, and their ratio, if there is one. The places stand at the front of a list, in order.
#[derive(Clone, Copy)]
pub(crate) struct Found {
    pub(crate) count: usize,
    pub(crate) least: Option<Frac>,
}

impl Found {
    // Before any candidate.
    pub(crate) fn none() -> Found
        ensures count { result.count ≡ 0 }
        ensures least { result.least ≡ None }
    {
        Found {
            count: 0,
            least: None,
        }
    }

    // One candidate more, if it has a ratio.
    pub(crate) fn offer_if(self, place: u32, ratio: Option<Frac>, ties: &mut [u32]) -> Found
        requires room { self.count < length ties.old }
        ensures size { length ties.new ≡ length ties.old }
        ensures offered { IsOfferedIf self ties.old place ratio result ties.new }
    {
        match ratio {
            Some(ratio) => self.offer(place, ratio, ties),
            None => self,
        }
    }

    // One candidate more: a lesser ratio begins the list anew, an equal one joins it, and a greater one is left out.
    pub(crate) fn offer(self, place: u32, ratio: Frac, ties: &mut [u32]) -> Found
        requires room { self.count < length ties.old }
        ensures size { length ties.new ≡ length ties.old }
        ensures offered { IsOffered self ties.old place ratio result ties.new }
    {
        match compare(ratio, &self.least) {
            Ordering::Less => {
                ties[0] = place;
                Found {
                    count: 1,
                    least: Some(ratio),
                }
            }
            Ordering::Equal => {
                let next = self.count;
                ties[next] = place;
                Found {
                    count: next + 1,
                    least: Some(ratio),
                }
            }
            Ordering::Greater => self,
        }
    }
}

// How a ratio compares with the least so far; the first one is less.
fn compare(ratio: Frac, least: &Option<Frac>) -> Ordering
    ensures { Compares ratio least.now result }
{
    match *least {
        None => Ordering::Less,
        Some(least) => ratio.cmp(least),
    }
}
