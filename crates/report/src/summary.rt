// The summary: the counts of the run, and what was written again.
use crate::columns::{LINE, put_time};
use account::again::Found;
use desk::page::Page;
use mirror::answer::COUNTED;
use mirror::stream::Run;

fn put_name(page: &mut Page, name: &str) {
    page.make_room(LINE);
    page.put_here(b"summary\t");
    page.put_here(name.as_bytes());
    page.put_here(b"\t");
}

fn put_count(page: &mut Page, name: &str, n: u64) {
    put_name(page, name);
    page.put_number_here(n);
    page.put_here(b"\n");
}

pub(crate) fn put_counts(page: &mut Page, run: &Run) {
    put_count(page, "records", run.records);
    for (answer, n) in COUNTED.iter().zip(run.counts.iter()) {
        put_count(page, answer.name(), *n);
    }
    put_count(page, "cut", u64::from(run.cut));
}

// The place of a run that was written again, where there is one.
fn put_place(page: &mut Page, name: &str, time: Option<u64>) {
    put_name(page, name);
    put_time(page, time);
    page.put_here(b"\n");
}

pub(crate) fn put_found(page: &mut Page, found: &Found) {
    put_count(page, "written-again", found.count);
    put_place(
        page,
        "first-written-again",
        found.span.map(|span| span.first),
    );
    put_place(page, "last-written-again", found.span.map(|span| span.last));
    put_count(page, "runs-too-long", found.long);
}
