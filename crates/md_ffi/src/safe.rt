//! Whether a text is safe HTML.

ghost use Rattle.std.specs.Prelude.{◌≡◌, ◌≤◌};
ghost use Rattle.md_text.specs.Html.{Forest};
ghost use Rattle.md_text.specs.Url.{link_protocols, image_protocols};
ghost use Rattle.md_safe.specs.Built.{IsBuiltAsRead};
ghost use Rattle.md_safe.specs.Tokenized.{IsSafelyTokenized};
ghost use Rattle.md_depth.specs.Levels.{NestsWithin};
ghost use Rattle.md_reader.specs.Safe.{IsSafeHtml, IsSafeReading, max_depth};

use md_reader::is_safe_html;

/// Whether a text is safe HTML, whoever wrote it: returns 1 if it is, else 0. So a text that comes
/// back from a database can be inserted into a page again.
///
/// It is safe exactly if it has a reading in the HTML grammar that follows the content model, with
/// no link in a link, in which no `href` or `src` has a protocol other than those that the compiler
/// permits, and whose elements nest at most 485 deep. The text needn't be UTF-8.
///
/// A C caller passes for the slice a pointer, which isn't null, and a length. No memory is
/// requested.
#[unsafe(no_mangle)]
pub extern "C" fn bivdrazo_is_safe_html(text: &[u8]) -> u32
    ensures safe { result ≡ 1 → IsSafeHtml link_protocols image_protocols text.now }
    ensures exact { (forest : Forest)
        → IsSafeReading link_protocols image_protocols text.now forest → result ≡ 1 }
    ensures tokens { result ≡ 1 → IsSafelyTokenized text.now }
    ensures tree { result ≡ 1 → IsBuiltAsRead text.now }
    ensures nesting { result ≡ 1 → NestsWithin max_depth text.now }
    ensures answer { result ≤ 1 }
{
    u32::from(is_safe_html(text))
}
