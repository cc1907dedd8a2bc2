//! Names of codes, and the words for them.
ghost use Rattle.std.specs.Prelude.{◌≡◌};
ghost use Rattle.ip_codes.specs.CodeNames.{name_in, kind_names, layer_names, len_source_names, number_names};
ghost use Rattle.ip_codes.specs.CodeWords.{kind_words, layer_words, number_words};

use ip_codes::{
    kind_name, kind_word, layer_name, layer_word, len_source_name, number_name, number_word,
};

/// Calls `kind_name` and stores its result in `name`.
#[unsafe(no_mangle)]
pub extern "C" fn wolfaren_find_kind_name(kind: u8, name: &mut &'static [u8])
    ensures { name.new.now ≡ name_in kind_names kind }
{
    *name = kind_name(kind);
}

/// Calls `layer_name` and stores its result in `name`.
#[unsafe(no_mangle)]
pub extern "C" fn wolfaren_find_layer_name(layer: u8, name: &mut &'static [u8])
    ensures { name.new.now ≡ name_in layer_names layer }
{
    *name = layer_name(layer);
}

/// Calls `len_source_name` and stores its result in `name`.
#[unsafe(no_mangle)]
pub extern "C" fn wolfaren_find_len_source_name(len_source: u8, name: &mut &'static [u8])
    ensures { name.new.now ≡ name_in len_source_names len_source }
{
    *name = len_source_name(len_source);
}

/// Calls `number_name` and stores its result in `name`.
#[unsafe(no_mangle)]
pub extern "C" fn wolfaren_find_number_name(number: u8, name: &mut &'static [u8])
    ensures { name.new.now ≡ name_in number_names number }
{
    *name = number_name(number);
}

/// Calls `kind_word` and stores its result in `word`.
#[unsafe(no_mangle)]
pub extern "C" fn wolfaren_find_kind_word(kind: u8, word: &mut &'static [u8])
    ensures { word.new.now ≡ name_in kind_words kind }
{
    *word = kind_word(kind);
}

/// Calls `layer_word` and stores its result in `word`.
#[unsafe(no_mangle)]
pub extern "C" fn wolfaren_find_layer_word(layer: u8, word: &mut &'static [u8])
    ensures { word.new.now ≡ name_in layer_words layer }
{
    *word = layer_word(layer);
}

/// Calls `number_word` and stores its result in `word`.
#[unsafe(no_mangle)]
pub extern "C" fn wolfaren_find_number_word(number: u8, word: &mut &'static [u8])
    ensures { word.new.now ≡ name_in number_words number }
{
    *word = number_word(number);
}
