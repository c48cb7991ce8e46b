// Sites and runs as bytes: whether bytes are one, read and written.
// Any bytes are taken. What is no site or no run is read as one of no sites, of which every step and every event is refused with 1;
// bytes of another number are not written, and 15 comes back.
#![tactic(auto)]

ghost use Rattle.std.specs.Prelude.{◌≡◌, ◌*◌, length, take, drop};
ghost use Rattle.std.specs.List.{list_all};
ghost use mathlib.Core.List.{map, flat_map};
ghost use Rattle.packed.specs.Bytes.{site_size, net_at, run_size, state_from, site_bytes, site_from, tells_site, is_site_bytes, site_in, run_bytes, rows_in, run_from, is_run_bytes, run_in, length_ground, replaced};

use refusal::Refusal;
use run::Run;
use site::{Site, State};
use std::array;

// A site's bytes, its row: n, number, state, leader, known stopped, yes heard, no heard, acknowledged.
pub const SITE: usize = 8;

// Where a site's state stands.
const STATE: usize = 2;

// A run's bytes: n, stopped, eight sites, the network.
pub const RUN: usize = NET + 72;

// Where a run's sites begin, and its network.
const SITES: usize = 2;

const NET: usize = SITES + 8 * SITE;

// ---- a site

// The state of a byte that `tells_site` has passed. No `TryFrom`: neither type is this crate's, and what bytes are is no concern of a site's.
fn state_from(byte: u8) -> State
    ensures { result ≡ state_from byte }
{
    match byte {
        0 => State::Q,
        1 => State::W,
        2 => State::P,
        3 => State::A,
        _ => State::C,
    }
}

// Is this a site's row? It has one of the five states.
#[tactic(auto, using(std::proofs::lemmas::Bool::Decides::nat_tests), unfolding(crate::specs::Bytes::tells_site))]
fn tells_site(row: &[u8; SITE]) -> bool
    ensures { result ≡ tells_site row.now }
{
    row[STATE] <= 4
}

// The site whose row this is.
#[tactic(auto, unfolding(crate::specs::Bytes::site_from))]
fn site_from(row: &[u8; SITE]) -> Site
    ensures { result ≡ site_from row.now }
{
    let [n, number, state, leader, known, yes, no, acked] = *row;
    Site {
        n,
        number,
        state: state_from(state),
        leader,
        known,
        yes,
        no,
        acked,
    }
}

// A site's row.
#[tactic(auto, unfolding(crate::specs::Bytes::site_bytes))]
fn row_of(site: Site) -> [u8; SITE]
    ensures { result ≡ site_bytes site }
{
    [
        site.n,
        site.number,
        site.state as u8,
        site.leader,
        site.known,
        site.yes,
        site.no,
        site.acked,
    ]
}

// Are these the bytes of a site?
#[tactic(auto, using(std::proofs::lemmas::Bool::Decides::nat_tests), unfolding(crate::specs::Bytes::is_site_bytes))]
pub fn is_site(bytes: &[u8]) -> bool
    ensures { result ≡ is_site_bytes bytes.now }
{
    bytes.as_array().is_some_and(tells_site)
}

// The site whose bytes these are; where they are none, one of no sites and no Err, as in read_run: both are public, and neither could fail.
#[tactic(auto, using(std::proofs::lemmas::Bool::Decides::nat_tests), unfolding(crate::specs::Bytes::site_in, crate::specs::Bytes::is_site_bytes))]
pub fn read_site(bytes: &[u8]) -> Site
    ensures { result ≡ site_in bytes.now }
{
    match bytes.as_array() {
        Some(row) if tells_site(row) => site_from(row),
        _ => Site::default(),
    }
}

// A site's bytes take the place of these.
#[tactic(auto, using(std::proofs::lemmas::Bool::Decides::nat_tests), unfolding(crate::specs::Bytes::length_ground, crate::specs::Bytes::replaced))]
pub fn write_site(bytes: &mut [u8], site: Site) -> Result<(), Refusal>
    ensures { (result ≡ length_ground site_size bytes.old) × (bytes.new ≡ replaced site_size bytes.old (site_bytes site)) }
{
    if bytes.len() != SITE {
        return Err(Refusal::NoRoom);
    }
    bytes.copy_from_slice(&row_of(site));
    Ok(())
}

// ---- a run

// The rows of the eight sites in as many bytes as a run has.
fn rows_in(run: &[u8; RUN]) -> &[[u8; SITE]]
    ensures { result.now ≡ rows_in run.now }
{
    run[SITES..NET].as_chunks().0
}

// Are the rows all sites'?
fn tells_run(run: &[u8; RUN]) -> bool
    ensures { result ≡ list_all tells_site (rows_in run.now) }
{
    rows_in(run).iter().all(tells_site)
}

// The sites whose rows these are.
fn sites_from(rows: &[[u8; SITE]]) -> [Site; 8]
    requires { length rows.now ≡ 8 }
    ensures { result ≡ map site_from rows.now }
{
    array::from_fn(|i| site_from(&rows[i]))
}

// The network in the bytes of a run.
fn net_from(run: &[u8; RUN]) -> [u8; 72]
    ensures { result ≡ take 72 (drop net_at run.now) }
{
    let mut net = [0; 72];
    net.copy_from_slice(&run[NET..]);
    net
}

// The run whose bytes these are.
#[tactic(auto, unfolding(crate::specs::Bytes::run_from))]
fn run_from(run: &[u8; RUN]) -> Run
    ensures { result ≡ run_from run.now }
{
    Run {
        n: run[0],
        stopped: run[1],
        sites: sites_from(rows_in(run)),
        net: net_from(run),
    }
}

// Are these the bytes of a run?
#[tactic(auto, using(crate::proofs::Reading::run_told, crate::proofs::Reading::run_sized))]
pub fn is_run(bytes: &[u8]) -> bool
    ensures { result ≡ is_run_bytes bytes.now }
{
    bytes.as_array().is_some_and(tells_run)
}

// The run whose bytes these are.
#[tactic(auto, using(crate::proofs::Reading::run_told, crate::proofs::Reading::run_sized), unfolding(crate::specs::Bytes::run_in))]
pub fn read_run(bytes: &[u8]) -> Run
    ensures { result ≡ run_in bytes.now }
{
    match bytes.as_array() {
        Some(run) if tells_run(run) => run_from(run),
        _ => run::fresh(0).run,
    }
}

// The rows of eight sites.
fn rows_of(sites: [Site; 8]) -> [[u8; SITE]; 8]
    ensures { result ≡ map site_bytes sites }
{
    sites.map(row_of)
}

// The bytes of eight sites take the place of these.
#[tactic(auto, using(text::proofs::Putting::rows_joined))]
fn put_sites(bytes: &mut [u8], sites: [Site; 8])
    requires { length bytes.old ≡ site_size * 8 }
    ensures { bytes.new ≡ flat_map site_bytes sites }
{
    bytes.copy_from_slice(rows_of(sites).as_flattened());
}

// A run's bytes take the place of these.
#[tactic(auto, using(std::proofs::lemmas::Bool::Decides::nat_tests), unfolding(crate::specs::Bytes::length_ground, crate::specs::Bytes::replaced, crate::specs::Bytes::run_bytes, crate::specs::Bytes::run_head))]
pub fn write_run(bytes: &mut [u8], run: Run) -> Result<(), Refusal>
    ensures { (result ≡ length_ground run_size bytes.old) × (bytes.new ≡ replaced run_size bytes.old (run_bytes run)) }
{
    if bytes.len() != RUN {
        return Err(Refusal::NoRoom);
    }
    bytes[..SITES].copy_from_slice(&[run.n, run.stopped]);
    put_sites(&mut bytes[SITES..NET], run.sites);
    bytes[NET..].copy_from_slice(&run.net);
    Ok(())
}
