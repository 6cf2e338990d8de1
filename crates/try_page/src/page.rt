// A page, line after line, and its summary.
use crate::letter::Letter;
use crate::picture::Picture;
use crate::report::Report;
use crate::summary::Summary;
use crate::verdict::Verdict;
use std::alloc::{AllocError, Global};
use std::io;
use std::io::{BufRead, BufReader, Read};

// What the lines so far came to.
#[derive(Drop)]
pub struct Page {
    summary: Summary,
    pub pictures: Vec<Picture>,
}

impl Page {
    fn new(heap: Global) -> Page {
        Page {
            summary: Summary::new(heap),
            pictures: Vec::new(heap),
        }
    }

    fn add(&mut self, heap: Global, report: Report<'_>) -> Result<(), AllocError> {
        if let Ok(Verdict::Atlas(key, metrics)) = report.verdict
            && !self.summary.has_picture(&key)
        {
            let picture = Picture::new(heap, report.letter.name, report.line, metrics)?;
            self.pictures.push(picture)?;
        }
        self.summary.add(report.verdict)
    }
}

fn try_line(rt: &HostRuntime, page: &mut Page, number: u64, line: &[u8]) -> io::Result<()> {
    match Letter::read(rt.alloc(), line) {
        Ok(Some(letter)) => {
            let report = Report {
                line: number,
                letter: &letter,
                verdict: letter.verdict(),
            };
            page.add(rt.alloc(), report)?;
            rt.println(report)
        }
        Ok(None) => Ok(()),
        Err(fault) => {
            page.summary.add_unread();
            println!(rt; "line {number}: cannot be read: {fault}")
        }
    }
}

pub fn try_page<R: Read + Drop>(rt: &HostRuntime, source: R) -> io::Result<Page> {
    let mut page = Page::new(rt.alloc());
    let lines = BufReader::new(rt.alloc(), source)?.split(rt.alloc(), b'\n');
    for (number, line) in (1..).zip(lines) {
        try_line(rt, &mut page, number, line?.as_slice())?;
    }
    rt.println(&page.summary)?;
    Ok(page)
}
