//! The words of rows, threads and domains, as a state of the machine has them.

ghost use Rattle.std.specs.{
  Prelude.{◌≡◌, ◌+◌, ◌<◌, ◌≤◌, [], ◌∷◌, IfOk, length, slice_get, slice_set},
  List.{All},
};
ghost use Rattle.um_base.specs.declared.limits.TheConstants.{DOMAINS, ROWS, THREADS};
ghost use Rattle.um_machine.specs.Objects.{thread_holds};
ghost use Rattle.um_fine.specs.{
  Opening.{count, domain_state, indexed, row_state, stage_of, thread_state},
  Sites.{SiteState},
};
ghost use Rattle.um_tables.specs.Sited.{in_domains};
ghost use Rattle.um_opening.specs.Opened.{AreDomains, AreRows, AreThreads, in_a_domain, object_of};

use std::alloc::Global;
use um_base::{DOMAINS, Image, OutOfMemory, ROWS, THREADS};
use um_boot::OpeningState;
use um_machine::Thread;
use um_steps::blank::{boots_row, is_set_up};
use um_steps::holds::holds;
use um_words::{DomWord, Permissions, RowWord, Stage, ThreadWord};

/// A thread has a permission, or has none.
fn put(all: &mut Permissions, t: u8, there: bool)
    ensures { all.new ≡ slice_set all.old t there }
{
    if there {
        all.add(t);
    } else {
        all.remove(t);
    }
}

/// The threads whose flag is set.
#[tactic(auto, using(crate::proofs::Lists::flag_more))]
fn permissions(flags: &[bool; THREADS]) -> Permissions
    ensures { result ≡ flags.now }
{
    let mut all = Permissions::none();
    for t in 0..THREADS {
        put(&mut all, t as u8, flags[t]);
    }
    all
}

/// Whether an object stands at a row.
fn stage_of(image: &Image, x: usize) -> Stage
    ensures { result ≡ stage_of (object_of image.now.boots x (slice_get image.now.objects x)) }
{
    match image.objects.as_slice().get(x) {
        Some(_) => Stage::Live,
        None => Stage::Free,
    }
}

/// Whether the object of a row is initialised.
pub fn is_init(image: &Image, x: usize) -> bool
    ensures { result ≡ (object_of image.now.boots x (slice_get image.now.objects x)).init }
{
    match image.objects.as_slice().get(x) {
        Some(object) => is_set_up(object.setup) || boots_row(image.boots.as_slice(), x),
        None => false,
    }
}

/// Whether the object of a row is public.
fn is_public(image: &Image, x: usize) -> bool
    ensures { result ≡ (object_of image.now.boots x (slice_get image.now.objects x)).public }
{
    match image.objects.as_slice().get(x) {
        Some(object) => object.public,
        None => false,
    }
}

/// One more, if the flag is set.
fn counted(claims: u8, more: bool) -> u8
    requires { claims < 255 }
    ensures value { result ≡ claims + count (more ∷ []) }
    ensures few { result ≤ claims + 1 }
{
    if more { claims + 1 } else { claims }
}

/// How many threads hold the object of a row.
fn claims(image: &Image, x: usize, threads: &[Thread]) -> u8
    requires few { length threads.now ≤ THREADS }
    requires row { x < ROWS }
    ensures { result ≡ count (indexed (thread_holds image.now x) 0 threads.now) }
{
    let mut claims = 0;
    for (t, thread) in threads.iter().enumerate() {
        claims = counted(claims, holds(image, x, t, thread));
    }
    claims
}

/// The word of a row.
fn row_word(state: &OpeningState, x: usize) -> RowWord
    requires { x < ROWS }
    ensures { SiteState.row result ≡ row_state state.now x }
{
    let image = state.image();
    RowWord {
        permissions: permissions(&state.pairs()[x]),
        init: is_init(image, x),
        public: is_public(image, x),
        dynamic: false,
        stage: stage_of(image, x),
        claims: claims(image, x, state.threads()),
        number: 0,
    }
}

/// The words of all rows.
pub fn rows(alloc: Global, state: &OpeningState) -> Result<Vec<RowWord>, OutOfMemory>
    ensures words { IfOk result (λ words. AreRows state.now ROWS words.items) }
    ensures all { IfOk result (λ words. length words.items ≡ ROWS) }
{
    let mut words = Vec::with_capacity(alloc, ROWS)?;
    for x in 0..ROWS {
        words.push(row_word(state, x))?;
    }
    Ok(words)
}

/// The word of a thread.
fn thread_word(state: &OpeningState, t: usize) -> ThreadWord
    requires index { t < THREADS }
    requires named { All in_a_domain state.now.threads }
    ensures word { SiteState.thread result ≡ thread_state state.now t }
    ensures named { in_domains result }
{
    let me = &state.threads()[t];
    ThreadWord {
        life: me.life,
        doomed: me.doomed,
        held: false,
        mode: me.mode,
        domain: me.domain,
        aborted: false,
        suspended: false,
        note: None,
        number: 0,
    }
}

/// The words of all threads.
pub fn threads(alloc: Global, state: &OpeningState) -> Result<Vec<ThreadWord>, OutOfMemory>
    requires { All in_a_domain state.now.threads }
    ensures words { IfOk result (λ words. AreThreads state.now THREADS words.items) }
    ensures all { IfOk result (λ words. length words.items ≡ THREADS) }
    ensures named { IfOk result (λ words. All in_domains words.items) }
{
    let mut words = Vec::with_capacity(alloc, THREADS)?;
    for t in 0..THREADS {
        words.push(thread_word(state, t))?;
    }
    Ok(words)
}

/// The word of a domain.
fn domain_word(state: &OpeningState, d: usize) -> DomWord
    ensures { SiteState.domain result ≡ domain_state state.now d }
{
    let init = match state.domains().get(d) {
        Some(Some(_)) => true,
        _ => false,
    };
    DomWord {
        init,
        writer: false,
        readers: 0,
        version: 0,
        number: 0,
    }
}

/// The words of all domains.
pub fn domains(alloc: Global, state: &OpeningState) -> Result<Vec<DomWord>, OutOfMemory>
    ensures words { IfOk result (λ words. AreDomains state.now DOMAINS words.items) }
    ensures all { IfOk result (λ words. length words.items ≡ DOMAINS) }
{
    let mut words = Vec::with_capacity(alloc, DOMAINS)?;
    for d in 0..DOMAINS {
        words.push(domain_word(state, d))?;
    }
    Ok(words)
}
