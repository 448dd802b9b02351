// The work of measurements: `relay_bench_rounds`, `relay_bench_bulletins` and `relay_bench_codec`
// of bench/README.md.

#![tactic(auto)]

ghost use Rattle.std.specs.Prelude.{◌≡◌, true, ◌+◌, ◌≤◌, ◌<◌, length};

use bodies::Body;
use bulletins_spec::{Bulletins, Shown};
use group_spec::{GroupAnswer, Post, Report};
use queues::QUEUE_CAPACITY;
use station_spec::{Setup, Station};

// The bytes of one round's masks: sixteen, two bytes each, the low byte first.
const MASKS_SIZE: usize = 32;

// A post comes before every eighth round, the first among them, at one station after the other.
const POST_EVERY: u32 = 8;

// The bytes of a station: RELAY_STATION_BYTES of include/relay.h.
const STATION_WIDTH: usize = 1492;

const LOW: u64 = 4_294_967_296;

// A number mixed into a sum.
fn mix(sum: u64, number: u32) -> u64 {
    sum % LOW * 2_654_435_769 + (number as u64)
}

// The number that a sum leaves.
fn low(sum: u64) -> u32 {
    (sum % LOW) as u32
}

// A number of at most 99 as it is; there are no others here.
fn small(number: usize) -> u32 {
    if number < 100 { number as u32 } else { 0 }
}

// A number where the mark is set, else 0.
fn weight(mark: bool, number: u32) -> u32
    ensures { result ≤ number }
{
    if mark { number } else { 0 }
}

// What the number of takings and the two marks of a turn say together.
fn flags(takings: usize, aired: bool, ended: bool) -> u32 {
    small(takings) % 32 + weight(aired, 32) + weight(ended, 64)
}

// The numbers of one report. One taking and one entry of the row, others in each round, stand for
// all.
fn mix_report(sum: u64, report: &Report, number: u32) -> u64 {
    let turn = &report.turn;
    let taking = report.takings[(number % 30) as usize];
    let aired = turn.row[(number % 16) as usize].body;
    let mut mixed = mix(sum, flags(report.takings_len, turn.aired, turn.ended));
    mixed = mix(mixed, taking.source as u32);
    mixed = mix(mixed, taking.body.event());
    mixed = mix(mixed, aired.event());
    mixed = mix(mixed, turn.ended_body.event());
    mix(mixed, turn.started_body.kind())
}

// The masks of a round.
fn masks_at(schedule: &[u8], at: usize) -> [u16; 16]
    requires { at + 32 ≤ length schedule.now }
{
    let mut masks = [0; 16];
    for i in 0..16 {
        masks[i] = u16::from_le_bytes([schedule[at + 2 * i], schedule[at + 2 * i + 1]]);
    }
    masks
}

// The body of a post.
fn body_of(post: u32) -> Body {
    Body::Insert {
        channel: 0,
        event: 1 + post % 99_999_999,
        start: (post % 1_000_000) as i32,
    }
}

// One of so many places.
fn place_of(number: u32, places: usize) -> usize
    requires { 1 ≤ places }
    ensures { result < places }
{
    (number as usize) % places
}

// The masks of a round, by its number: the schedule is gone through again and again.
fn masks_of(schedule: &[u8], number: u32) -> [u16; 16]
    requires { 32 ≤ length schedule.now }
{
    let at = MASKS_SIZE * place_of(number, schedule.len() / MASKS_SIZE);
    masks_at(schedule, at)
}

// A post, by its number, made at its station: sixteen are desk 0's, the next sixteen desk 1's, and
// so on.
fn posted(g: [Station; 16], n: usize, post: u32) -> GroupAnswer
    requires { 1 ≤ n }
{
    let made = Post {
        station: place_of(post, n),
        desk: place_of(post / 16, 2),
        body: body_of(post),
    };
    group::post(g, made)
}

// The setup of a group with the largest limit.
fn setup_of(n: usize) -> Setup {
    Setup {
        n,
        limit: QUEUE_CAPACITY,
        edition: 0,
    }
}

// From a fresh group with the largest limit, so many rounds; gives a checksum of what they report.
fn run(schedule: &[u8], n: usize, rounds: u32) -> u32
    requires some { 1 ≤ n }
    requires few { n ≤ 16 }
    requires masks { 32 ≤ length schedule.now }
{
    let mut g = group::fresh_limited(setup_of(n)).group;
    let mut sum = 0;
    for number in 0..rounds {
        if number % POST_EVERY == 0 {
            g = posted(g, n, number / POST_EVERY).group;
        }
        let done = rounds::round(g, masks_of(schedule, number));
        g = done.group;
        for k in 0..n {
            sum = mix_report(sum, &done.reports[k], number);
        }
    }
    low(sum)
}

// The bulletins begin anew in every so many rounds, the first among them.
const ANEW_EVERY: u32 = 16;

// A tag for a place; those of an issuer are in no order.
fn tag_of(place: u32) -> u32 {
    ((place as u64) * 2_654_435_769 % LOW) as u32
}

// Bulletins of n stations, each of which has issued four.
fn all_issued(n: usize) -> Bulletins
    requires { n ≤ 16 }
{
    let mut b = bulletins::fresh(n).bulletins;
    for place in 0..(4 * n) as u32 {
        b = bulletins::issue(b, (place / 4) as usize, tag_of(place), place + 1).bulletins;
    }
    b
}

// What a station shows. One notice, another in each round, stands for all.
fn mix_shown(sum: u64, shown: &Shown, number: u32) -> u64 {
    let notice = shown.notices[(number % 64) as usize];
    let mut mixed = mix(sum, small(shown.len));
    mixed = mix(mixed, notice.issuer);
    mix(mixed, notice.tag)
}

// From fresh, so many rounds with bulletins; gives a checksum of what they report and show.
fn run_bulletins(schedule: &[u8], n: usize, rounds: u32) -> u32
    requires some { 1 ≤ n }
    requires few { n ≤ 16 }
    requires masks { 32 ≤ length schedule.now }
{
    let begun = all_issued(n);
    let mut g = group::fresh_limited(setup_of(n)).group;
    let mut b = begun;
    let mut sum = 0;
    for number in 0..rounds {
        if number % POST_EVERY == 0 {
            g = posted(g, n, number / POST_EVERY).group;
        }
        if number % ANEW_EVERY == 0 {
            b = begun;
        }
        let done = bulletins::round(g, b, masks_of(schedule, number));
        g = done.round.group;
        b = done.bulletins;
        for k in 0..n {
            sum = mix_report(sum, &done.round.reports[k], number);
            sum = mix_shown(sum, &done.shown[k], number);
        }
    }
    low(sum)
}

// Are there one to sixteen stations, and whole rounds of masks, one at least?
fn may_run(schedule: &[u8], n: u32) -> bool
    ensures { result ≡ true → (1 ≤ n) × (n ≤ 16) × (32 ≤ length schedule.now) }
{
    let len = schedule.len();
    1 <= n && n <= 16 && MASKS_SIZE <= len && len % MASKS_SIZE == 0
}

/// From fresh, rounds with the masks of a schedule, again and again; gives a checksum of what they
/// report, and 0 if a number is refused.
#[unsafe(no_mangle)]
pub extern "C" fn relay_bench_rounds(schedule: &[u8], n: u32, rounds: u32) -> u32 {
    if !may_run(schedule, n) {
        return 0;
    }
    run(schedule, n as usize, rounds)
}

/// The same with bulletins, of which each station has issued four.
#[unsafe(no_mangle)]
pub extern "C" fn relay_bench_bulletins(schedule: &[u8], n: u32, rounds: u32) -> u32 {
    if !may_run(schedule, n) {
        return 0;
    }
    run_bulletins(schedule, n as usize, rounds)
}

/// A station's bytes, read and written again so many times, and judged each time before where a
/// number that is not 0 says so. Gives how often that was done: fewer times where the bytes are no
/// station, and never where they are too few.
#[unsafe(no_mangle)]
pub extern "C" fn relay_bench_codec(state: &mut [u8], times: u32, judged: u32) -> u32 {
    if state.len() < STATION_WIDTH {
        return 0;
    }
    for done in 0..times {
        if judged != 0 && !station_decoder::is_station(state) {
            return done;
        }
        let station = station_decoder::read_station(state);
        station_encoder::put_station(state, 0, &station);
    }
    times
}
