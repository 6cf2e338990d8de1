// Reads a page file and says for each letter what the glyph atlas will make of it.
#![tactic(auto)]

mod choice;
mod draft;
mod failure;
mod field;
mod key_set;
mod letter;
mod line_fault;
mod packed;
mod page;
mod page_map;
mod picture;
mod refused;
mod report;
mod summary;
mod verdict;
mod words;

use crate::choice::CacheChoice;
use crate::failure::Failure;
use crate::packed::pack;
use crate::page::try_page;
use crate::picture::Picture;
use crate::refused::Refused;
use grid_cache::grid::Grid;
use image_cache::cache::ImageCache;
use image_cache::fault::CacheFault;
use shelf_cache::shelves::Shelves;
use std::fs::File;
use std::process::ExitCode;
use std::{env, fs, io};

fn open(rt: &HostRuntime, path: String) -> Result<File, Failure> {
    fs::open(rt, path.as_str()).map_err(|error| Failure::Open(path, error))
}

// Packs the pictures onto the new cache, or says why there is none.
fn pack_onto<C: ImageCache + Drop>(
    rt: &HostRuntime,
    cache: Result<C, CacheFault>,
    pictures: &[Picture],
) -> io::Result<()> {
    match cache {
        Ok(mut cache) => pack(rt, &mut cache, pictures),
        Err(fault) => rt.println(Refused(fault)),
    }
}

fn pack_as(rt: &HostRuntime, choice: CacheChoice, pictures: &[Picture]) -> io::Result<()> {
    println!(rt; "{choice}")?;
    match choice {
        CacheChoice::Shelf {
            width,
            height,
            pages,
        } => pack_onto(rt, Shelves::new(width, height, pages), pictures),
        CacheChoice::Grid { side, pages } => pack_onto(rt, Grid::new(side, pages), pictures),
    }
}

fn run(rt: &HostRuntime) -> Result<(), Failure> {
    let mut args = env::args(rt).map_err(Failure::Arguments)?.skip(1);
    let page = match args.next() {
        Some(path) => try_page(rt, open(rt, path)?)?,
        None => try_page(rt, rt.stdin())?,
    };
    let words: Vec<String> = args.collect(rt.alloc())?;
    for choice in CacheChoice::read_all(rt.alloc(), words.as_slice())?.iter() {
        pack_as(rt, *choice, page.pictures.as_slice())?;
    }
    Ok(())
}

fn main(rt: HostRuntime) -> ExitCode {
    match run(&rt) {
        Ok(()) => ExitCode::SUCCESS,
        Err(failure) => {
            let _ = eprintln!(rt; "try_page: {failure}");
            ExitCode::FAILURE
        }
    }
}
