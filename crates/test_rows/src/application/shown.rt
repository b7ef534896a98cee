//! Deployments as texts, so that a row can say all of them.

use std::alloc::{AllocError, Global};
use sv_config::{
    Cluster, Context, CookieConfig, ErrorPage, FileMapping, FileSource, Once, PageFor, Setting,
};

fn ports_text(alloc: Global, ports: &[u16]) -> Result<String, AllocError> {
    let mut text = String::from_str(alloc, "ports")?;
    for port in ports {
        text.push_str(&format!(in alloc; " {port}")?)?;
    }
    Ok(text)
}

/// How many keys a node knows, and whether it forgets some; nothing where neither is asked for.
fn keys_text(alloc: Global, cluster: &Cluster) -> Result<String, AllocError> {
    match (cluster.keys, cluster.forget) {
        (65_536, false) => Ok(String::new(alloc)),
        (keys, false) => format!(in alloc; ", keys {keys}"),
        (keys, true) => format!(in alloc; ", keys {keys}, forgets"),
    }
}

/// The ports, the deadline, where the secrets come from, and how many keys a node knows where that is asked for.
pub fn cluster_text(alloc: Global, cluster: &Cluster) -> Result<String, AllocError> {
    let ports = ports_text(alloc, &cluster.ports)?;
    let keys = keys_text(alloc, cluster)?;
    match &cluster.secrets {
        Some(secrets) => {
            format!(in alloc;
                "{ports}, deadline {}, secrets {secrets}{keys}",
                cluster.deadline
            )
        }
        None => format!(in alloc; "{ports}, deadline {}, no secrets{keys}", cluster.deadline),
    }
}

/// Adds a word, and each name after a blank.
fn push_names(text: &mut String, word: &str, names: &[String]) -> Result<(), AllocError> {
    text.push_str(word)?;
    for name in names {
        text.push_str(" ")?;
        text.push_str(name)?;
    }
    Ok(())
}

/// A page as what it is for, a colon and its path.
fn page_text(alloc: Global, page: &ErrorPage) -> Result<String, AllocError> {
    match &page.choice {
        PageFor::Status(status) => format!(in alloc; " {status}:{}", page.path),
        PageFor::Fault(fault) => format!(in alloc; " fault {fault}:{}", page.path),
        PageFor::Default => format!(in alloc; " default:{}", page.path),
    }
}

fn push_pages(alloc: Global, text: &mut String, pages: &[ErrorPage]) -> Result<(), AllocError> {
    text.push_str(", pages")?;
    for page in pages {
        text.push_str(&page_text(alloc, page)?)?;
    }
    Ok(())
}

/// How many answers sessions remember, and which parameter may have the key; nothing where they remember none.
fn push_once(text: &mut String, once: &Option<Once>) -> Result<(), AllocError> {
    let Some(once) = once else {
        return Ok(());
    };
    write!(text, ", once {}", once.answers)?;
    if let Some(parameter) = &once.parameter {
        write!(text, " or {parameter}")?;
    }
    Ok(())
}

/// The name, `secure` and the value of SameSite of a session cookie, as far as they are there; nothing where none is.
fn push_cookie(text: &mut String, cookie: &CookieConfig) -> Result<(), AllocError> {
    if cookie.name.is_none() && !cookie.secure && cookie.same_site.is_none() {
        return Ok(());
    }
    text.push_str(", cookie")?;
    if let Some(name) = &cookie.name {
        write!(text, " {name}")?;
    }
    if cookie.secure {
        text.push_str(" secure")?;
    }
    if let Some(same_site) = cookie.same_site {
        write!(text, " {}", same_site.word())?;
    }
    Ok(())
}

/// The settings, each as its name and its value in quotes; nothing where there is none.
fn push_settings(text: &mut String, settings: &[Setting]) -> Result<(), AllocError> {
    for setting in settings {
        write!(text, ", {} is {:?}", setting.name, setting.value)?;
    }
    Ok(())
}

/// What a file mapping serves, by what paths, and with which Cache-Control.
fn push_file(text: &mut String, file: &FileMapping) -> Result<(), AllocError> {
    match &file.source {
        FileSource::File(path) => write!(text, ", file {path} at {}", file.path)?,
        FileSource::Folder(path) => write!(text, ", folder {path} at {}", file.path)?,
    }
    if let Some(cache) = &file.cache {
        write!(text, " for {cache}")?;
    }
    Ok(())
}

fn push_files(text: &mut String, files: &[FileMapping]) -> Result<(), AllocError> {
    for file in files {
        push_file(text, file)?;
    }
    Ok(())
}

/// The path between angle brackets, the interval, and how many patterns and filter mappings there are.
fn front_text(alloc: Global, context: &Context) -> Result<String, AllocError> {
    format!(in alloc;
        "<{}> interval {}, patterns {}, filter mappings {}",
        context.path,
        context.interval,
        context.mappings.len(),
        context.filter_mappings.len()
    )
}

fn push_context(alloc: Global, text: &mut String, context: &Context) -> Result<(), AllocError> {
    text.push_str(&front_text(alloc, context)?)?;
    push_names(text, ", servlets", &context.servlets)?;
    push_names(text, ", filters", &context.filters)?;
    push_names(text, ", listeners", &context.listeners)?;
    push_pages(alloc, text, &context.error_pages)?;
    push_once(text, &context.once)?;
    push_cookie(text, &context.cookie)?;
    push_settings(text, &context.settings)?;
    push_files(text, &context.files)
}

/// Each context, after a semicolon from the second one on.
pub fn contexts_text(alloc: Global, contexts: &[Context]) -> Result<String, AllocError> {
    let mut text = String::new(alloc);
    for context in contexts {
        if !text.is_empty() {
            text.push_str("; ")?;
        }
        push_context(alloc, &mut text, context)?;
    }
    Ok(text)
}
