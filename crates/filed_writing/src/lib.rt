// A corrected group written front to back into another buffer; the group given stays as it is. A pair
// is treated in two rooms and stands there until another is: mates with no other pair between them are
// treated once, and other mates once for each of the two, so that bytes go out in order.
#![tactic(auto)]

ghost use Rattle.std.specs.Prelude.{◌≡◌, ℕ, ◌+◌, ◌-◌, ◌<◌, ◌≤◌, List, length, get_or, cond};
ghost use Rattle.stats.specs.Counts.{zeroed};
ghost use Rattle.pair_judgement.specs.Ready.{Cleared};
ghost use Rattle.group_frames.specs.Frame.{begin_of, record_of};
ghost use Rattle.group_frames.specs.Table.{Tabled};
ghost use Rattle.group_mates.specs.Table.{Mated};
ghost use Rattle.group_applying.specs.Within.{start_in, end_in};
ghost use Rattle.filed_writing.specs.Lead.{Pairing, Led};
ghost use Rattle.filed_writing.specs.Short.{Short};
ghost use Rattle.filed_writing.specs.Turn.{AllPassed, Paired, Turned, Roomy, SameSize, Holds, framed, Begun, Wrote};
ghost use Rattle.filed_writing.specs.Written.{Treats, Copied, applied, WrittenTo};

use group_applying::Applied;
use group_frames::Frames;
use stats::CorrectionStats;
use strategy::Strategies;

// Enters, for each mate, one more than the index of the record that it is the mate of; 0 for the others.
// Kept: `lead` holds numbers and no Option: `write_all`, which docs/PROVED.md names, is lent it as such.
fn enter_leads(mate: &[usize], n: usize, lead: &mut [usize])
    requires { Pairing mate.now n × (256 ≤ length lead.old) }
    ensures { Led mate.now lead.new n }
{
    lead[..n].fill(0);
    for (i, m) in mate[..n].iter().enumerate() {
        if let Some(last) = m.checked_sub(1) {
            lead[last] = i + 1;
        }
    }
}

// Two records that were judged as a pair, treated with counts from 0 as the pair call treats them, and what the pair
// adds.
fn treat(first: &mut [u8], second: &mut [u8], w: Strategies) -> Applied
    requires { Cleared first.old second.old }
    ensures { Treats w first.old second.old first.new second.new result }
{
    let met = pair_judgement::treat_judged(w, first, second, CorrectionStats::new());
    Applied::of_pair(met)
}

// Copies of two records that were judged as a pair, treated, and what the pair adds.
fn treat_copies(
    first: &[u8],
    second: &[u8],
    w: Strategies,
    left: &mut [u8],
    right: &mut [u8],
) -> Applied
    requires { Cleared first.now second.now × (length first.now ≤ length left.old) × (length second.now ≤ length right.old) }
    ensures { Copied w first.now second.now left.new right.new result }
{
    let n = first.len();
    let m = second.len();
    left[..n].copy_from_slice(first);
    right[..m].copy_from_slice(second);
    treat(&mut left[..n], &mut right[..m], w)
}

// The numbers of no pair.
fn no_pair() -> Applied
    ensures { result ≡ applied 0 0 zeroed }
{
    Applied {
        pairs: 0,
        overlapping: 0,
        stats: CorrectionStats::new(),
    }
}

// A pair, by the indices of its two records.
#[derive(Clone, Copy)]
struct Mates {
    first: usize,
    last: usize,
}

// The pair that record k is in, by the tables of mates and leads.
// Kept: two tables of fixed length, since no memory is taken for a group; `group_mates::find` fills the one so.
fn pair_of(mate: &[usize], lead: &[usize], k: usize) -> Option<Mates>
    requires { (k < 256) × (256 ≤ length mate.now) × (256 ≤ length lead.now) }
    ensures { (s : List ℕ) (n : ℕ) → k < n → Mated s mate.now n → Led mate.now lead.now n → AllPassed s n → Turned s n k result }
{
    if let Some(last) = mate[k].checked_sub(1) {
        return Some(Mates { first: k, last });
    }
    let first = lead[k].checked_sub(1)?;
    Some(Mates { first, last: k })
}

// Puts the frame of record k: its size, and as many bytes as the record has from the front of x.
fn put_frame(frames: Frames<'_>, k: usize, x: &[u8], out: &mut [u8])
    requires { (k + 1 < length frames.begins.now) × (start_in frames.begins.now k ≤ end_in frames.begins.now k) × (end_in frames.begins.now k ≤ length frames.bytes.now) × (end_in frames.begins.now k ≤ length out.old) × (end_in frames.begins.now k - start_in frames.begins.now k ≤ length x.now) }
    ensures { out.new ≡ framed frames.entry.bytes.now (get_or frames.entry.begins.now k 0) (end_in frames.entry.begins.now k) x.now out.old }
{
    let begin = frames.begins[k];
    let start = begin + 4;
    let end = frames.begins[k + 1];
    let size = end - start;
    out[begin..start].copy_from_slice(&frames.bytes[begin..start]);
    out[start..end].copy_from_slice(&x[..size]);
}

// The pair that stands treated in the rooms, by the index of its first, and what it adds.
#[derive(Clone, Copy)]
struct Held {
    first: usize,
    added: Applied,
}

// Room for copies of the two records of a pair, and the pair that stands there treated.
#[derive(Drop)]
struct Rooms<'a> {
    left: &'a mut [u8],
    right: &'a mut [u8],
    held: Option<Held>,
}

impl Rooms<'_> {
    // What stands in the room for lasts, or in that for firsts. A function, since a field `&mut [u8]` of a struct behind
    // `&mut` is read as a whole slice only so.
    // Kept: `last` says which of the two rooms is read; an enum of two would be no plainer.
    fn room(&self, last: bool) -> &[u8]
        ensures { result.now ≡ cond last self.now.right.now self.now.left.now }
    {
        if last { &*self.right } else { &*self.left }
    }

    // What a pair adds, treated in the rooms unless it stands there.
    fn hold(&mut self, frames: Frames<'_>, pair: Mates, w: Strategies) -> Applied
        requires { Tabled frames × Paired frames.bytes.now frames.count pair × Roomy frames self.old × Holds w frames.bytes.now frames.count self.old }
        ensures { Copied w (record_of frames.entry.bytes.now pair.first) (record_of frames.entry.bytes.now pair.last) self.new.left.now self.new.right.now result × Holds w frames.entry.bytes.now frames.entry.count self.new × SameSize self.old self.new }
    {
        if let Some(held) = self.held {
            if held.first == pair.first {
                return held.added;
            }
        }
        let first = frames.record(pair.first);
        let last = frames.record(pair.last);
        let added = treat_copies(first, last, w, self.left, self.right);
        self.held = Some(Held {
            first: pair.first,
            added,
        });
        added
    }

    // Writes record k of a group, with its size, as it is in the corrected group, and answers what it adds: a pair
    // counts where its first is written.
    fn write(
        &mut self,
        frames: Frames<'_>,
        k: usize,
        pair: Option<Mates>,
        w: Strategies,
        out: &mut [u8],
    ) -> Applied
        requires { Tabled frames × Turned frames.bytes.now frames.count k pair × Roomy frames self.old × Holds w frames.bytes.now frames.count self.old × Begun w frames.bytes.now frames.count k out.old }
        ensures { Wrote w frames.entry.bytes.now frames.entry.count k out.old out.new result × Holds w frames.entry.bytes.now frames.entry.count self.new × SameSize self.old self.new }
    {
        let Some(pair) = pair else {
            put_frame(frames, k, frames.record(k), out);
            return no_pair();
        };
        let added = self.hold(frames, pair, w);
        if pair.first == k {
            put_frame(frames, k, self.room(false), out);
            return added;
        }
        put_frame(frames, k, self.room(true), out);
        no_pair()
    }
}

// Writes the records of a group, each pair corrected, from the start of `out` on; all were judged, and none refused.
// `lead` is room for a table, `left` and `right` each for any one record.
// Kept: `lead`, `left` and `right` come as slices and not as `Rooms`: the caller makes them, of one of two sizes,
// and `lead` in another function than the rooms, which keeps these apart on the stack (docs/DECISIONS.md).
pub fn write_all(
    frames: Frames<'_>,
    mate: &[usize],
    lead: &mut [usize],
    w: Strategies,
    left: &mut [u8],
    right: &mut [u8],
    out: &mut [u8],
) -> Applied
    requires { Tabled frames × Mated frames.bytes.now mate.now frames.count × (256 ≤ length lead.old) × Short frames.begins.now frames.count (length left.old) × Short frames.begins.now frames.count (length right.old) × (begin_of frames.bytes.now frames.count ≤ length out.old) × AllPassed frames.bytes.now frames.count }
    ensures { WrittenTo w frames.entry.bytes.now frames.entry.count out.old out.new result }
{
    enter_leads(mate, frames.count, lead);
    let mut rooms = Rooms {
        left,
        right,
        held: None,
    };
    let mut sum = no_pair();
    for k in 0..frames.count {
        let pair = pair_of(mate, lead, k);
        let added = rooms.write(frames, k, pair, w, out);
        sum = sum.plus(added);
    }
    sum
}
