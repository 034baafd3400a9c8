// Scripts and replies of many lines.
use std::alloc::Global;
use std::test::Fail;

/// A line for each number from the first to before the end, with the number at its end.
pub fn numbered(alloc: Global, start: &str, first: u64, end: u64) -> Result<String, Fail> {
    let mut script = String::new(alloc);
    for number in first..end {
        script.push_str(format!(in alloc; "{start}{number}\n")?.as_str())?;
    }
    Ok(script)
}

/// A text so many times.
pub fn repeated(alloc: Global, text: &str, count: u64) -> Result<String, Fail> {
    let mut texts = String::new(alloc);
    for _ in 0..count {
        texts.push_str(text)?;
    }
    Ok(texts)
}

/// A text, a name of so many bytes, and another text.
pub fn with_name(alloc: Global, start: &str, length: u64, end: &str) -> Result<String, Fail> {
    let name = repeated(alloc, "n", length)?;
    joined(alloc, &[start, name.as_str(), end])
}

/// How many lines these bytes are.
pub fn lines_in(text: &[u8]) -> usize {
    text.iter().filter(|byte| **byte == b'\n').count()
}

/// Some texts, one behind the other.
pub fn joined(alloc: Global, texts: &[&str]) -> Result<String, Fail> {
    let mut whole = String::new(alloc);
    for text in texts {
        whole.push_str(text)?;
    }
    Ok(whole)
}
