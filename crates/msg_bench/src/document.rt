//! The document: classes below one root, which has a method of each selector but the first.

use anyhow::{Context, Result};
use msg_image::{Image, read_document};
use std::alloc::{AllocError, Global};

/// The number of classes.
pub(crate) const CLASSES: u32 = 32;

/// The selectors that are sought are numbered from 1 to this one.
pub(crate) const SELECTORS: u32 = 255;

// The methods of the root, and their implementations. Selector 1 is that of forwarding, and of
// another selector the implementation's number is one less than its own.
fn methods(alloc: Global) -> Result<(String, String), AllocError> {
    let mut methods = String::new(alloc);
    let mut imps = String::new(alloc);
    for number in 1..SELECTORS {
        let comma = if number == 1 { "" } else { "," };
        methods.push_str(&format!(in alloc; "{comma}[\"s{number}\",\"i{number}\"]")?)?;
        imps.push_str(&format!(in alloc; "{comma}{{\"name\":\"i{number}\",\"class\":\"C0\",")?)?;
        imps.push_str(&format!(in alloc; "\"meta\":false,\"args\":0,\"body\":{number}}}")?)?;
    }
    Ok((methods, imps))
}

// The other classes.
fn others(alloc: Global) -> Result<String, AllocError> {
    let mut others = String::new(alloc);
    for number in 1..CLASSES {
        others.push_str(&format!(in alloc;
            ",{{\"name\":\"C{number}\",\"super\":\"C0\",\"methods\":[],\"class_methods\":[]}}"
        )?)?;
    }
    Ok(others)
}

fn text(alloc: Global) -> Result<String, AllocError> {
    let (methods, imps) = methods(alloc)?;
    let others = others(alloc)?;
    let root = format!(in alloc;
        "{{\"name\":\"C0\",\"super\":null,\"methods\":[{methods}],\"class_methods\":[]}}"
    )?;
    let classes = format!(in alloc; "\"version\":1,\"classes\":[{root}{others}]")?;
    format!(in alloc;
        "{{{classes},\"categories\":[],\"objects\":[],\"imps\":[{imps}],\"items\":[]}}"
    )
}

pub(crate) fn image(alloc: Global) -> Result<Image> {
    let text = text(alloc)?;
    Ok(read_document(alloc, text.as_bytes())?.image)
}
