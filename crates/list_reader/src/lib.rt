// The list's reader: whether any bytes keep the rules of "The list", and for a list that does, each entry's job and
// the place of its times.
#![tactic(auto)]

ghost use Rattle.std.specs.Prelude.{◌≡◌, ◌+◌, ◌-◌, ◌*◌, ◌<◌};
ghost use Rattle.rules.specs.Count.{two};
ghost use Rattle.rules.specs.RunList.{instances};
ghost use Rattle.sheet.specs.WellFormed.{said_by};
ghost use Rattle.list_reader.specs.View.{WithSpans, Finds, AtEntry, EntryOf, FewEntries, Columns, EntriesOf, head_ok, FormOf, InBody};
ghost use Rattle.numbers.specs.Size.{word};

use sheet::WellFormed;

// A well-formed list. Its entries' job numbers and the places of their times go into columns.
#[derive(Clone, Copy)]
pub struct RunList {
    pub instances: usize,
}

// One entry whose job exists and whose offset is right: its job's number, and where its body ends.
#[derive(Clone, Copy)]
pub struct Entry {
    pub job: usize,
    pub next: usize,
}

// All entries: how many, and where the last body ends.
#[derive(Clone, Copy)]
pub struct Entries {
    pub count: usize,
    pub end: usize,
}

// The number of the job with this code, if there is one. Codes rise.
// A search by hand: the library searches slices, and the codes stand in the sheet's bytes, two or four apart.
fn find(sheet: &WellFormed, code: usize) -> Option<usize>
    ensures { Finds (said_by sheet.now) code result }
{
    let jobs = sheet.view.jobs;
    let mut low = 0;
    let mut high = jobs;
    while low < high {
        let middle = (low + high) / 2;
        if sheet.code(middle) < code {
            low = middle + 1;
        } else {
            high = middle;
        }
    }
    if low < jobs && sheet.code(low) == code {
        Some(low)
    } else {
        None
    }
}

impl Entry {
    // Entry k, whose body starts at `at`, if it fits.
    #[tactic(auto, unfolding(rules::specs::RunList::max_instances))]
    fn new(sheet: &WellFormed, spans: &[u16], l: &[u8], k: usize, at: usize) -> Option<Entry>
        requires { AtEntry sheet.now spans.now l.now k at }
        ensures { EntryOf (said_by sheet.now) l.now k result }
    {
        let job = find(sheet, sheet::two_at(l, 4 + 4 * k))?;
        if sheet::two_at(l, 6 + 4 * k) != at {
            return None;
        }
        let size = usize::from(spans[job + 1] - spans[job]);
        Some(Entry {
            job: job,
            next: at + 2 * size,
        })
    }
}

impl Entries {
    // All entries, if they fit. Each entry's job and the place of its times go into the two columns.
    fn read(
        sheet: &WellFormed,
        spans: &[u16],
        l: &[u8],
        job: &mut [u16],
        place: &mut [u16],
    ) -> Option<Entries>
        requires { FewEntries sheet.now spans.now l.now × Columns job.old place.old }
        ensures { EntriesOf (said_by sheet.now) l.now result job.new place.new }
    {
        let count = sheet::two_at(l, 2);
        let mut at = 4 + 4 * count;
        for k in 0..count {
            let entry = Entry::new(sheet, spans, l, k, at)?;
            job[k] = entry.job as u16;
            place[k] = at as u16;
            at = entry.next;
        }
        Some(Entries {
            count: count,
            end: at,
        })
    }
}

impl RunList {
    pub const MAX_INSTANCES: usize = 64;

    pub const MAX_TIMES: usize = 512;

    // How many instances the bytes say.
    // Equals: instances l
    #[tactic(auto, unfolding(rules::specs::RunList::instances))]
    pub fn count(l: &[u8]) -> usize
        ensures { result ≡ instances l.now }
    {
        sheet::two_at(l, 2)
    }

    // The first four bytes: edition 1, a zero byte, and not too many instances.
    fn head(l: &[u8]) -> bool
        ensures { result ≡ head_ok l.now }
    {
        (sheet::byte_at(l, 0) == 1)
            & (sheet::byte_at(l, 1) == 0)
            & (sheet::two_at(l, 2) <= RunList::MAX_INSTANCES)
    }

    // Any bytes as a list for this sheet, none if they break a rule of "The list".
    // Equals: whether list_ok holds, then the count of instances, and job_of and body_of of each entry (FormOf)
    // Free: the places behind the last entry, and after None both columns: nothing is said of them.
    #[tactic(auto, unfolding(rules::specs::RunList::max_instances))]
    pub fn read(
        sheet: &WellFormed,
        spans: &[u16],
        l: &[u8],
        job: &mut [u16],
        place: &mut [u16],
    ) -> Option<RunList>
        requires { WithSpans sheet.now spans.now × Columns job.old place.old }
        ensures { FormOf (said_by sheet.now) l.now result job.new place.new }
    {
        if !RunList::head(l) {
            return None;
        }
        let entries = Entries::read(sheet, spans, l, job, place)?;
        let most = 4 + 4 * entries.count + 2 * RunList::MAX_TIMES;
        if entries.end <= most && entries.end == l.len() {
            Some(RunList {
                instances: entries.count,
            })
        } else {
            None
        }
    }

    // The tick of event e in an entry whose times begin at `place`, where `first` is the first event of its job.
    // Equals: two l (place + 2 * (e - first))
    pub fn time(l: &[u8], place: usize, first: usize, e: usize) -> usize
        requires { InBody l.now place first e }
        ensures { (result ≡ two l.now (place + 2 * (e - first))) × (result < word) }
    {
        sheet::two_in(l, place + 2 * (e - first))
    }
}
