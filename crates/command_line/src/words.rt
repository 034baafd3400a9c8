// The words of a command line, and the path of an image.
ghost use Rattle.std.specs.Prelude.{◌≡◌, ◌++◌, [], ◌∷◌, map, OnOk, OnErr, IfOk};
ghost use Rattle.std.specs.String.{string_bytes};

use pm_trait::NoMemory;
use std::alloc::Global;
use std::marker::Model;

/// The words of a command line, the first of them the program's name, seen as the list of them.
#[derive(Drop)]
pub struct Words {
    alloc: Global,
    words: Vec<String>,
}

impl Model for Words {
    ghost use Rattle.std.specs.Prelude.{List, ℕ, map};
    ghost use Rattle.std.specs.String.{string_bytes};

    ghost Value = { List (List ℕ) };

    ghost view = { λ words. map string_bytes words.words.items };
}

impl Words {
    /// No words.
    pub fn new(alloc: Global) -> Words
        ensures { result ≡ [] }
    {
        Words {
            alloc,
            words: Vec::new(alloc),
        }
    }

    /// Adds a word at the end, or changes nothing.
    pub fn push(&mut self, word: &str) -> Result<(), NoMemory>
        ensures ok { OnOk result (self.new ≡ self.old ++ word.now ∷ []) }
        ensures err { OnErr result (self.new ≡ self.old) }
    {
        let word = owned(self.alloc, word)?;
        self.words.push(word)?;
        Ok(())
    }

    /// The words as texts.
    pub(crate) fn as_slice(&self) -> &[String]
        ensures { map string_bytes result.now ≡ self.now }
    {
        self.words.as_slice()
    }
}

/// The path of an image file, seen as its bytes.
#[derive(Drop)]
pub struct ImagePath {
    text: String,
}

impl Model for ImagePath {
    ghost use Rattle.std.specs.Prelude.{List, ℕ};
    ghost use Rattle.std.specs.String.{string_bytes};

    ghost Value = { List ℕ };

    ghost view = { λ path. string_bytes path.text };
}

impl ImagePath {
    /// A path of this text.
    pub(crate) fn new(alloc: Global, text: &str) -> Result<ImagePath, NoMemory>
        ensures { IfOk result (λ path. path ≡ text.now) }
    {
        let text = owned(alloc, text)?;
        Ok(ImagePath { text })
    }

    /// The text.
    pub fn as_str(&self) -> &str
        ensures { result.now ≡ self.now }
    {
        self.text.as_str()
    }
}

// The text, owned.
fn owned(alloc: Global, text: &str) -> Result<String, NoMemory>
    ensures { IfOk result (λ owned. string_bytes owned ≡ text.now) }
{
    let owned = text.to_string(alloc)?;
    Ok(owned)
}
