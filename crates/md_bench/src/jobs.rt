//! The jobs that users wait for.

use crate::awkward::{KINDS, Kind, write_awkward};
use crate::digest::Digest;
use crate::documents::{article, comment, page};
use crate::draft::{Document, Draft};
use crate::random::Random;
use crate::scripts::script_of;
use crate::texts::Texts;
use md_html::{CompileOptions, SafeError, SafeHtml, compile, compile_safe};
use md_script::{run, serve};
use std::alloc::{AllocError, Global};

/// The names of character references, each with its text.
pub static NAMES: [(&str, &str); 10] = [
    ("amp", "&"),
    ("lt", "<"),
    ("gt", ">"),
    ("quot", "\""),
    ("apos", "'"),
    ("nbsp", "\u{a0}"),
    ("copy", "©"),
    ("mdash", "—"),
    ("hellip", "…"),
    ("colon", ":"),
];

/// What is done.
#[derive(Clone, Copy)]
pub enum Job {
    /// Comments are rendered under safe options.
    Comments,
    /// Pages in English are compiled.
    Pages,
    /// Pages in other scripts are compiled.
    Letters,
    /// Articles with many links, footnotes and tables are compiled.
    Articles,
    /// Event scripts are run.
    Scripts,
    /// What strangers send is compiled.
    Awkward,
}

impl Job {
    /// The job with this name.
    pub fn named(name: &str) -> Option<Job> {
        match name {
            "comments" => Some(Job::Comments),
            "pages" => Some(Job::Pages),
            "letters" => Some(Job::Letters),
            "articles" => Some(Job::Articles),
            "scripts" => Some(Job::Scripts),
            "awkward" => Some(Job::Awkward),
            _ => None,
        }
    }

    /// How many documents there are, each of which is changed from call to call.
    fn documents(self) -> usize {
        match self {
            Job::Comments => 1_000,
            Job::Pages | Job::Letters => 32,
            Job::Articles => 6,
            Job::Scripts => 4,
            Job::Awkward => 1,
        }
    }
}

/// What a job is made of.
#[derive(Drop)]
pub struct Work<'a> {
    pub alloc: Global,
    /// The names of character references, each with its text.
    pub names: &'a [(&'a str, &'a str)],
    pub texts: &'a Texts<'a>,
    pub seed: u64,
}

/// The results of so many calls of a job.
pub fn results(work: &Work<'_>, job: Job, count: usize) -> Result<Digest, AllocError> {
    let mut digest = Digest::new();
    match job {
        Job::Awkward => compile_awkward(work, &KINDS, count, &mut digest)?,
        _ => {
            let mut documents = documents(work, job, count)?;
            call_each(work, job, count, &mut documents, &mut digest)?;
        }
    }
    Ok(digest)
}

/// The documents of a job of so many calls.
fn documents(work: &Work<'_>, job: Job, count: usize) -> Result<Vec<Document>, AllocError> {
    let mut documents = Vec::new(work.alloc);
    for number in 0..job.documents().min(count) {
        documents.push(document(work, job, number)?)?;
    }
    Ok(documents)
}

/// The document with this number of a job.
fn document(work: &Work<'_>, job: Job, number: usize) -> Result<Document, AllocError> {
    let language = match job {
        Job::Letters => (number / 8).wrapping_add(number) % 4 + 1,
        _ => 0,
    };
    let random = Random::new(work.seed, number);
    let mut draft = Draft::new(work.alloc, random, work.texts.lines(language));
    write_document(&mut draft, job, number);
    let document = draft.finish()?;
    match job {
        Job::Scripts => script_of(work.alloc, &document),
        _ => Ok(document),
    }
}

/// Writes the document with this number of a job.
fn write_document(draft: &mut Draft<'_>, job: Job, number: usize) {
    match job {
        Job::Comments => comment(draft, number),
        Job::Articles => {
            let links = spread(draft, number % 6, 340).saturating_add(500);
            article(draft, number, links);
        }
        Job::Scripts => {
            draft.has_common_names = true;
            let size = spread(draft, number % 4, 200_000).saturating_add(300_000);
            page(draft, number, size);
        }
        Job::Pages | Job::Letters | Job::Awkward => {
            draft.has_html = number % 3 != 1;
            let size = page_size(draft, number);
            page(draft, number, size);
        }
    }
}

/// A number in the step with this place, from 0: so the documents of a job have sizes that are spread evenly.
fn spread(draft: &mut Draft<'_>, place: usize, step: usize) -> usize {
    place
        .saturating_mul(step)
        .saturating_add(draft.random.below(step))
}

/// How many bytes a page has, from 10,000 to 300,000: most have few.
fn page_size(draft: &mut Draft<'_>, number: usize) -> usize {
    match number % 8 {
        0 => spread(draft, number / 8, 37_500).saturating_add(150_000),
        1..=3 => draft.random.between(40_000, 100_000),
        _ => draft.random.between(10_000, 40_000),
    }
}

/// Goes over the documents in rounds, until there are so many calls; each is changed before it is used.
fn call_each(
    work: &Work<'_>,
    job: Job,
    count: usize,
    documents: &mut Vec<Document>,
    digest: &mut Digest,
) -> Result<(), AllocError> {
    for round in 0..count {
        for document in documents.iter_mut() {
            if digest.calls >= count {
                return Ok(());
            }
            document.vary(round);
            call(work, job, document, digest)?;
        }
    }
    Ok(())
}

/// Makes the call of a job over a document.
fn call(
    work: &Work<'_>,
    job: Job,
    document: &Document,
    digest: &mut Digest,
) -> Result<(), AllocError> {
    match job {
        Job::Scripts => call_script(work, document, digest),
        Job::Comments => call_comment(work, document, digest),
        Job::Articles => call_article(work, document, digest),
        _ if document.has_html => call_dangerous(work, document, digest),
        _ => call_page(work, document, digest),
    }
}

/// Adds a safe text, or why there is none.
fn add_safe(
    work: &Work<'_>,
    outcome: Result<SafeHtml, SafeError>,
    digest: &mut Digest,
) -> Result<(), AllocError> {
    match outcome {
        Ok(html) => {
            digest.accept(html.as_str());
            Ok(())
        }
        Err(error) => digest.refuse(work.alloc, &error),
    }
}

/// A comment is rendered as a service does it: some have the tag filter on, and those with footnotes ids that differ.
fn call_comment(
    work: &Work<'_>,
    document: &Document,
    digest: &mut Digest,
) -> Result<(), AllocError> {
    let mut options = CompileOptions::default();
    options.gfm_footnote_number_ids = document.has_notes;
    options.gfm_tagfilter = digest.calls % 5 == 0;
    let outcome = compile_safe(
        work.alloc,
        document.events.as_slice(),
        document.bytes.as_slice(),
        &options,
        work.names,
    );
    add_safe(work, outcome, digest)
}

/// An article is compiled under safe options.
fn call_article(
    work: &Work<'_>,
    document: &Document,
    digest: &mut Digest,
) -> Result<(), AllocError> {
    let outcome = compile_safe(
        work.alloc,
        document.events.as_slice(),
        document.bytes.as_slice(),
        &CompileOptions::gfm(),
        work.names,
    );
    add_safe(work, outcome, digest)
}

/// A page is compiled, and put into a whole one.
fn call_page(work: &Work<'_>, document: &Document, digest: &mut Digest) -> Result<(), AllocError> {
    let outcome = compile_safe(
        work.alloc,
        document.events.as_slice(),
        document.bytes.as_slice(),
        &CompileOptions::default(),
        work.names,
    );
    match outcome {
        Ok(html) => {
            let text = md_page::page(work.alloc, "A page & its parts", &html)?;
            digest.accept(text.as_str());
            Ok(())
        }
        Err(error) => digest.refuse(work.alloc, &error),
    }
}

/// A page is compiled with its HTML as it is.
fn call_dangerous(
    work: &Work<'_>,
    document: &Document,
    digest: &mut Digest,
) -> Result<(), AllocError> {
    let mut options = CompileOptions::default();
    options.allow_dangerous_html = true;
    call_compile(work, document, &options, digest)
}

fn call_compile(
    work: &Work<'_>,
    document: &Document,
    options: &CompileOptions,
    digest: &mut Digest,
) -> Result<(), AllocError> {
    let outcome = compile(
        work.alloc,
        document.events.as_slice(),
        document.bytes.as_slice(),
        options,
        work.names,
    );
    match outcome {
        Ok(text) => {
            digest.accept(text.as_str());
            Ok(())
        }
        Err(error) => digest.refuse(work.alloc, &error),
    }
}

/// A script is run, or read and served, by turns.
fn call_script(
    work: &Work<'_>,
    document: &Document,
    digest: &mut Digest,
) -> Result<(), AllocError> {
    if digest.calls % 2 == 0 {
        match run(work.alloc, document.bytes.as_slice()) {
            Ok(text) => {
                digest.accept(text.as_str());
                Ok(())
            }
            Err(error) => digest.refuse(work.alloc, &error),
        }
    } else {
        call_serve(work, document.bytes.as_slice(), digest)
    }
}

fn call_serve(work: &Work<'_>, script: &[u8], digest: &mut Digest) -> Result<(), AllocError> {
    let mut reader = script;
    let mut text = Vec::new(work.alloc);
    match serve(work.alloc, &mut reader, &mut text) {
        Ok(()) => {
            digest.accept_bytes(text.as_slice());
            Ok(())
        }
        Err(error) => digest.refuse(work.alloc, &error),
    }
}

/// Compiles what strangers send, each kind in this size.
fn compile_awkward(
    work: &Work<'_>,
    kinds: &[Kind],
    size: usize,
    digest: &mut Digest,
) -> Result<(), AllocError> {
    for kind in kinds {
        compile_kind(work, *kind, size, digest)?;
    }
    Ok(())
}

fn compile_kind(
    work: &Work<'_>,
    kind: Kind,
    size: usize,
    digest: &mut Digest,
) -> Result<(), AllocError> {
    let mut document = awkward_document(work, kind, size)?;
    for round in 0..kind.rounds() {
        document.vary(round);
        call_compile(work, &document, &CompileOptions::default(), digest)?;
    }
    Ok(())
}

fn awkward_document(work: &Work<'_>, kind: Kind, size: usize) -> Result<Document, AllocError> {
    let random = Random::new(work.seed, size);
    let language = match kind {
        Kind::Addresses => 1,
        _ => 0,
    };
    let mut draft = Draft::new(work.alloc, random, work.texts.lines(language));
    write_awkward(&mut draft, kind, size);
    draft.finish()
}
