//! Steps of rows, threads and domains, each at its place.

ghost use Rattle.std.specs.Prelude.{◌≡◌, ◌<◌};
ghost use Rattle.um_site.specs.{
  Calls.{thread_site, domain_site, site_of, IsPlace, Stays, AtPlace, LeavesAt, MayNext, Records},
  Tells.{made},
};

use crate::board::{Board, Changed};
use crate::place::Place;
use crate::plays::Step;
use crate::seat::Seat;
use um_base::ThreadIx;
use um_words::{Content, Local};

/// The site of a thread's word.
pub fn thread_site(who: ThreadIx) -> u16
    requires { who.0 < 32 }
    ensures { result ≡ thread_site who.0 }
{
    128 + u16::from(who.0)
}

/// The site of a domain's word.
pub fn domain_site(domain: u8) -> u16
    requires { domain < 8 }
    ensures { result ≡ domain_site domain }
{
    160 + u16::from(domain)
}

/// The site of the word at a place.
pub fn site_of(place: Place) -> u16
    requires { IsPlace place }
    ensures { result ≡ site_of place }
{
    match place {
        Place::Row(row) => u16::from(row.0),
        Place::Thread(who) => thread_site(who),
        Place::Domain(domain) => domain_site(domain),
    }
}

impl<T: Content, L: Local> Board<T, L> {
    /// One recorded step of a row, of a thread or of a domain, by which this word comes to stand at its place. The step itself stands in
    /// clauses alone, as `D::made`: a caller picks it by what it is about.
    #[inline(always)]
    pub fn step_at<D: Step, A>(
        &self,
        seat: &mut Seat<T>,
        place: Place,
        seen: u64,
        next: u64,
        about: &A,
    ) -> Result<(), Changed>
        requires at { AtPlace self.now.table.shared.table_id seat.old place seen }
        requires step { D.made ≡ made (site_of place) D.made.act next }
        requires leaves { LeavesAt place seen D.made.act next }
        requires goes { MayNext L.goes seat.old (site_of place) seen D.made.act }
        ensures stays { Stays seat.old seat.new }
        ensures told { Records L.goes seat.old (site_of place) seen D.made.act result seat.new }
    {
        let _ = about;
        self.step_to::<D>(seat, site_of(place), seen, next)?;
        Ok(())
    }
}
