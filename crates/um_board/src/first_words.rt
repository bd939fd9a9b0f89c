//! The words with which the board of an image opens.

ghost use Rattle.std.specs.Prelude.{◌≡◌, ◌≢◌, ℕ, ◌+◌, ◌%◌, ◌<◌, ◌≤◌, IfOk, length, slice_index};
ghost use Rattle.um_base.specs.{Lawful.{IsLawful}, declared.limits.TheConstants.{DOMAINS, ROWS, THREADS}};
ghost use Rattle.um_machine.specs.Run.{opening};
ghost use Rattle.um_words.specs.Steps.{number};
ghost use Rattle.um_opening.specs.Opened.{AreDomains, AreRows, AreThreads};
ghost use Rattle.um_board.specs.Opening.{AreOpening, IsFirstWord};

use crate::places::SCHEDULER;
use std::alloc::Global;
use um_base::{Image, OutOfMemory};
use um_words::{CellWord, DomWord, RowWord, ThreadWord};

/// How many words a board has.
const WORDS: u16 = 309;

/// The word of a row.
fn row_word(image: &Image, rows: &[RowWord], row: u16) -> u64
    requires site { row < ROWS }
    requires all { length rows.now ≡ ROWS }
    requires rows { AreRows (opening image.now) ROWS rows.now }
    ensures { IsFirstWord image.now row result }
{
    rows[row as usize].pack()
}

/// The word of a thread.
fn thread_word(image: &Image, threads: &[ThreadWord], site: u16, thread: u16) -> u64
    requires lawful { IsLawful image.now }
    requires few { length image.now.domains ≤ DOMAINS }
    requires site { (thread < THREADS) × (128 + thread ≡ site) }
    requires all { length threads.now ≡ THREADS }
    requires threads { AreThreads (opening image.now) THREADS threads.now }
    ensures { IsFirstWord image.now site result }
{
    threads[thread as usize].pack()
}

/// The word of a domain.
fn domain_word(image: &Image, domains: &[DomWord], site: u16, domain: u16) -> u64
    requires site { (domain < DOMAINS) × (160 + domain ≡ site) }
    requires all { length domains.now ≡ DOMAINS }
    requires domains { AreDomains (opening image.now) DOMAINS domains.now }
    ensures { IsFirstWord image.now site result }
{
    domains[domain as usize].pack()
}

/// The word of a cell but the scheduler's.
fn cell_word(image: &Image, site: u16) -> u64
    requires site { (168 ≤ site) × (site < 309) × (site ≢ 306) }
    ensures { IsFirstWord image.now site result }
{
    let _ = image;
    0
}

/// The word of the scheduler: the boot threads are ready.
fn scheduler_word(image: &Image) -> u64
    ensures { IsFirstWord image.now 306 result }
{
    let word = CellWord {
        turn: false,
        ready: image.boots.len() as u8,
        running: 0,
        owed: 0,
        number: 0,
    };
    word.pack()
}

/// The word of a site.
fn word_at(
    image: &Image,
    rows: &[RowWord],
    threads: &[ThreadWord],
    domains: &[DomWord],
    site: u16,
) -> u64
    requires lawful { IsLawful image.now }
    requires few { length image.now.domains ≤ DOMAINS }
    requires site { site < 309 }
    requires rows { AreRows (opening image.now) ROWS rows.now }
    requires threads { AreThreads (opening image.now) THREADS threads.now }
    requires domains { AreDomains (opening image.now) DOMAINS domains.now }
    requires all { (length rows.now ≡ ROWS) × (length threads.now ≡ THREADS)
        × (length domains.now ≡ DOMAINS) }
    ensures { IsFirstWord image.now site result }
{
    if site < 128 {
        row_word(image, rows, site)
    } else if site < 160 {
        thread_word(image, threads, site, site - 128)
    } else if site < 168 {
        domain_word(image, domains, site, site - 160)
    } else if site == SCHEDULER {
        scheduler_word(image)
    } else {
        cell_word(image, site)
    }
}

/// The words of all sites, which have taken no step.
pub fn first_words(
    alloc: Global,
    image: &Image,
    rows: &[RowWord],
    threads: &[ThreadWord],
    domains: &[DomWord],
) -> Result<Vec<u64>, OutOfMemory>
    requires lawful { IsLawful image.now }
    requires rows { AreRows (opening image.now) ROWS rows.now }
    requires threads { AreThreads (opening image.now) THREADS threads.now }
    requires domains { AreDomains (opening image.now) DOMAINS domains.now }
    requires all { (length rows.now ≡ ROWS) × (length threads.now ≡ THREADS)
        × (length domains.now ≡ DOMAINS) }
    ensures words { IfOk result (λ words. AreOpening image.now words.items) }
    ensures unstepped { IfOk result
        (λ words. (i : ℕ) → i < length words.items → number i (slice_index words.items i) ≡ 0) }
    ensures free { IfOk result
        (λ words. (i : ℕ) → 168 ≤ i → i < length words.items → slice_index words.items i % 2 ≡ 0) }
{
    // no more domains than have words
    let _few = image.domains.len();
    let mut words = Vec::with_capacity(alloc, WORDS as usize)?;
    for site in 0..WORDS {
        words.push(word_at(image, rows, threads, domains, site))?;
    }
    Ok(words)
}
