// Packing a page's pictures onto an image cache of any kind: place all, free every other one, place those again.
use crate::page_map::{Mark, PageMap, ROWS};
use crate::picture::Picture;
use crate::refused::Refused;
use image_cache::cache::ImageCache;
use image_cache::fault::CacheFault;
use image_cache::image::{Image, Size};
use packing::place::{place, place_all};
use std::{fmt, io};

// A picture, and the place that the cache gave it.
#[derive(Clone, Copy)]
struct Placed<'a> {
    picture: &'a Picture,
    answer: Result<Image, CacheFault>,
}

impl Placed<'_> {
    fn mark(&self) -> Option<Mark> {
        Some(Mark {
            image: self.answer.ok()?,
            sign: self.picture.sign(),
        })
    }
}

impl fmt::Display for Placed<'_> {
    fn fmt<W: fmt::Write>(&self, f: &mut fmt::Formatter<W>) -> fmt::Result {
        let picture = self.picture;
        write!(f, "line {}: {}: ", picture.line, picture.name.as_str())?;
        match self.answer {
            Ok(image) => {
                let Image {
                    page,
                    x,
                    y,
                    w,
                    h,
                    ..
                } = image;
                write!(f, "page {page}, at {x} {y}, {w} x {h}")
            }
            Err(fault) => write!(f, "{}", Refused(fault)),
        }
    }
}

// Frees every other picture that has a place, and places each again at the end.
fn place_again<C: ImageCache>(
    rt: &HostRuntime,
    cache: &mut C,
    pictures: &[Picture],
    answers: &mut [Result<Image, CacheFault>],
) -> io::Result<()> {
    for answer in answers.iter().step_by(2) {
        if let Ok(image) = *answer {
            let _ = cache.free(image.id);
        }
    }
    for (picture, answer) in pictures.iter().zip(answers.iter_mut()).step_by(2) {
        *answer = place(cache, picture.size);
        rt.println(Placed {
            picture,
            answer: *answer,
        })?;
    }
    Ok(())
}

fn print_map(rt: &HostRuntime, map: PageMap<'_>) -> io::Result<()> {
    let tenths = map.share();
    println!(rt; "page {}: {}.{} % used", map.page, tenths / 10, tenths % 10)?;
    for row in 0..ROWS {
        rt.println(map.row(rt.alloc(), row)?)?;
    }
    Ok(())
}

pub fn pack<C: ImageCache>(
    rt: &HostRuntime,
    cache: &mut C,
    pictures: &[Picture],
) -> io::Result<()> {
    let heap = rt.alloc();
    let sizes: Vec<Size> = pictures.iter().map(|picture| picture.size).collect(heap)?;
    let mut answers = place_all(heap, cache, sizes.as_slice())?;
    for (picture, answer) in pictures.iter().zip(answers.iter().copied()) {
        rt.println(Placed { picture, answer })?;
    }
    println!(rt; "every other one freed, and placed again")?;
    place_again(rt, cache, pictures, answers.as_mut_slice())?;
    let marks: Vec<Mark> = pictures
        .iter()
        .zip(answers.iter().copied())
        .filter_map(|(picture, answer)| Placed { picture, answer }.mark())
        .collect(heap)?;
    let size = Size {
        w: cache.page_width(),
        h: cache.page_height(),
    };
    for page in 0..cache.page_count() {
        let marks = marks.as_slice();
        print_map(rt, PageMap { marks, page, size })?;
    }
    Ok(())
}
