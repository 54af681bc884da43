//! Texts that have a reading in the HTML grammar, and texts that have none.

ghost use Rattle.std.specs.Prelude.{◌≡◌, ◌∷◌, [], ◌++◌, codes};
ghost use Rattle.md_text.specs.Filter.{disarmed_names};
ghost use Rattle.md_text.specs.Html.{HasReading, HasReadingWith};
ghost use Rattle.md_text.specs.Ids.{HasDistinctIds};
ghost use Rattle.md_text.specs.Url.{link_protocols, image_protocols};
ghost use Rattle.md_text.specs.Safe.{is_safe_link, is_safe_image};

/// Each element of the table may stand alone.
pub fn elements_stand_alone()
    ensures blockquote { HasReading (codes "<blockquote></blockquote>") }
    ensures pre { HasReading (codes "<pre></pre>") }
    ensures p { HasReading (codes "<p></p>") }
    ensures ul { HasReading (codes "<ul></ul>") }
    ensures em { HasReading (codes "<em></em>") }
    ensures strong { HasReading (codes "<strong></strong>") }
    ensures del { HasReading (codes "<del></del>") }
    ensures sup { HasReading (codes "<sup></sup>") }
    ensures table { HasReading (codes "<table></table>") }
    ensures thead { HasReading (codes "<thead></thead>") }
    ensures tbody { HasReading (codes "<tbody></tbody>") }
    ensures tr { HasReading (codes "<tr></tr>") }
    ensures h1 { HasReading (codes "<h1></h1>") }
    ensures h2 { HasReading (codes "<h2></h2>") }
    ensures h3 { HasReading (codes "<h3></h3>") }
    ensures h4 { HasReading (codes "<h4></h4>") }
    ensures h5 { HasReading (codes "<h5></h5>") }
    ensures h6 { HasReading (codes "<h6></h6>") }
    ensures code { HasReading (codes "<code></code>") }
    ensures ol { HasReading (codes "<ol></ol>") }
    ensures li { HasReading (codes "<li></li>") }
    ensures th { HasReading (codes "<th></th>") }
    ensures td { HasReading (codes "<td></td>") }
    ensures section { HasReading (codes "<section></section>") }
    ensures a { HasReading (codes "<a></a>") }
{}

/// Each void tag of the table may stand alone.
pub fn void_tags_stand_alone()
    ensures br { HasReading (codes "<br />") }
    ensures hr { HasReading (codes "<hr />") }
    ensures img { HasReading (codes "<img />") }
    ensures input { HasReading (codes "<input />") }
{}

/// Each tag may have the attributes that the table lists for it, in any order.
pub fn listed_attributes_are_allowed()
    ensures code { HasReading (codes "<code class=\"language-a\"></code>") }
    ensures ol { HasReading (codes "<ol start=\"2\"></ol>") }
    ensures li { HasReading (codes "<li id=\"a\"></li>") }
    ensures h2 { HasReading (codes "<h2 class=\"sr-only\" id=\"a\"></h2>") }
    ensures th { HasReading (codes "<th align=\"left\"></th>") }
    ensures td { HasReading (codes "<td align=\"right\"></td>") }
    ensures section { HasReading
        (codes "<section data-footnotes=\"\" class=\"footnotes\"></section>") }
    ensures a { HasReading
        (codes
        "<a href=\"a\" title=\"b\" id=\"c\" class=\"d\" data-footnote-ref=\"\""
        ++ codes " data-footnote-backref=\"\" aria-describedby=\"e\" aria-label=\"f\">"
        ++ codes "</a>") }
    ensures rel { HasReading (codes "<a href=\"a\" rel=\"nofollow\"></a>") }
    ensures img { HasReading (codes "<img src=\"a\" alt=\"b\" title=\"c\" />") }
    ensures input { HasReading (codes "<input type=\"checkbox\" disabled=\"\" checked=\"\" />") }
{}

/// Each element that authors may write besides may stand alone, and the void tag.
pub fn elements_of_authors_stand_alone()
    ensures b { HasReading (codes "<b></b>") }
    ensures i { HasReading (codes "<i></i>") }
    ensures u { HasReading (codes "<u></u>") }
    ensures s { HasReading (codes "<s></s>") }
    ensures small { HasReading (codes "<small></small>") }
    ensures sub { HasReading (codes "<sub></sub>") }
    ensures span { HasReading (codes "<span></span>") }
    ensures kbd { HasReading (codes "<kbd></kbd>") }
    ensures samp { HasReading (codes "<samp></samp>") }
    ensures var { HasReading (codes "<var></var>") }
    ensures q { HasReading (codes "<q></q>") }
    ensures cite { HasReading (codes "<cite></cite>") }
    ensures abbr { HasReading (codes "<abbr></abbr>") }
    ensures dfn { HasReading (codes "<dfn></dfn>") }
    ensures ins { HasReading (codes "<ins></ins>") }
    ensures mark { HasReading (codes "<mark></mark>") }
    ensures div { HasReading (codes "<div></div>") }
    ensures details { HasReading (codes "<details></details>") }
    ensures summary { HasReading (codes "<summary></summary>") }
    ensures figure { HasReading (codes "<figure></figure>") }
    ensures figcaption { HasReading (codes "<figcaption></figcaption>") }
    ensures tfoot { HasReading (codes "<tfoot></tfoot>") }
    ensures wbr { HasReading (codes "<wbr />") }
{}

/// Authors' tags may have the attributes that the table lists for them.
pub fn attributes_of_authors_are_allowed()
    ensures p { HasReading
        (codes "<p align=\"a\" id=\"b\" title=\"c\" lang=\"d\" dir=\"e\"></p>") }
    ensures h2 { HasReading (codes "<h2 align=\"a\" title=\"b\"></h2>") }
    ensures td { HasReading
        (codes "<td colspan=\"1\" rowspan=\"2\" width=\"3\" height=\"4\" valign=\"a\"></td>") }
    ensures tr { HasReading (codes "<tr align=\"a\" valign=\"b\"></tr>") }
    ensures table { HasReading (codes "<table align=\"a\" width=\"1\"></table>") }
    ensures details { HasReading (codes "<details open=\"\"></details>") }
    ensures a { HasReading (codes "<a name=\"a\" lang=\"b\"></a>") }
    ensures img { HasReading (codes "<img width=\"1\" height=\"2\" align=\"a\" id=\"b\" />") }
    ensures br { HasReading (codes "<br id=\"a\" />") }
{}

/// A text whose special characters are references has a reading, and so has the empty text.
pub fn texts_stand_alone()
    ensures nothing { HasReading (codes "") }
    ensures text { HasReading (codes "a\n b") }
    ensures references { HasReading (codes "&amp;&lt;&gt;&quot;") }
    ensures escaped_reference { HasReading (codes "&amp;colon;") }
{}

/// Nested lists, a table and a section of footnotes.
pub fn documents_have_readings()
    ensures nested_lists { HasReading (codes "<ul>\n<li>a\n<ul>\n<li>b</li>\n</ul>\n</li>\n</ul>") }
    ensures aligned_table { HasReading
        (codes "<table>\n<thead>\n<tr>\n<th align=\"left\">a</th>\n</tr>\n</thead>\n"
        ++ codes "<tbody>\n<tr>\n<td>b</td>\n</tr>\n</tbody>\n</table>") }
    ensures footnotes { HasReading (codes "<section data-footnotes=\"\" class=\"footnotes\">"
        ++ codes "<h2 id=\"footnote-label\" class=\"sr-only\">Footnotes</h2>\n<ol>\n"
        ++ codes "<li id=\"fn-a\">\n<p>b <a href=\"#fnref-a\" data-footnote-backref=\"\""
        ++ codes " aria-label=\"Back to content\" class=\"data-footnote-backref\">"
        ++ codes "back</a></p>\n</li>\n</ol>\n</section>\n") }
    ensures inline { HasReading
        (codes "<p>a <strong>b</strong><em>c</em>d<br />\n<del>e</del></p>\n<hr />") }
{}

/// Tags that the tables don't list, in any case.
pub fn other_tags_have_no_reading()
    ensures script { ¬ HasReading (codes "<script>") }
    ensures script_pair { ¬ HasReading (codes "<script></script>") }
    ensures style { ¬ HasReading (codes "<style></style>") }
    ensures iframe { ¬ HasReading (codes "<iframe></iframe>") }
    ensures button { ¬ HasReading (codes "<button></button>") }
    ensures form { ¬ HasReading (codes "<form></form>") }
    ensures upper_case { ¬ HasReading (codes "<P></P>") }
    ensures comment { ¬ HasReading (codes "<!-- a -->") }
    ensures doctype { ¬ HasReading (codes "<!doctype html>") }
    ensures longer_name { ¬ HasReading (codes "<pp></pp>") }
    ensures shorter_name { ¬ HasReading (codes "<h></h>") }
{}

/// Tags that aren't closed, that cross each other, or that the grammar doesn't write so.
pub fn broken_tags_have_no_reading()
    ensures inner_unclosed { ¬ HasReading (codes "<p><b></p>") }
    ensures unclosed { ¬ HasReading (codes "<p>") }
    ensures unopened { ¬ HasReading (codes "</p>") }
    ensures crossing { ¬ HasReading (codes "<em><strong></em></strong>") }
    ensures other_end { ¬ HasReading (codes "<em></strong>") }
    ensures space_in_tag { ¬ HasReading (codes "<p ></p>") }
    ensures space_in_end { ¬ HasReading (codes "<p></p >") }
    ensures element_without_content { ¬ HasReading (codes "<p />") }
    ensures void_without_slash { ¬ HasReading (codes "<br>") }
    ensures void_without_space { ¬ HasReading (codes "<br/>") }
    ensures void_with_end { ¬ HasReading (codes "<br /></br>") }
    ensures open_at_the_end { ¬ HasReading (codes "<p") }
    ensures angle_alone { ¬ HasReading (codes "<") }
{}

/// Attributes that aren't listed for their tag, or that are repeated.
pub fn other_attributes_have_no_reading()
    ensures handler { ¬ HasReading (codes "<img onerror=\"x\">") }
    ensures handler_in_void { ¬ HasReading (codes "<img onerror=\"x\" />") }
    ensures style { ¬ HasReading (codes "<p style=\"a\"></p>") }
    ensures class_of_another { ¬ HasReading (codes "<p class=\"a\"></p>") }
    ensures class_of_an_author { ¬ HasReading (codes "<div class=\"a\"></div>") }
    ensures href_of_an_image { ¬ HasReading (codes "<img href=\"a\" />") }
    ensures upper_case { ¬ HasReading (codes "<a HREF=\"a\"></a>") }
    ensures twice { ¬ HasReading (codes "<a href=\"a\" href=\"b\"></a>") }
    ensures same_twice { ¬ HasReading (codes "<li id=\"a\" id=\"a\"></li>") }
    ensures without_value { ¬ HasReading (codes "<input checked />") }
    ensures without_quotes { ¬ HasReading (codes "<a href=a></a>") }
    ensures single_quotes { ¬ HasReading (codes "<a href='a'></a>") }
    ensures two_spaces { ¬ HasReading (codes "<a  href=\"a\"></a>") }
{}

/// Special characters that aren't part of a reference.
pub fn raw_characters_have_no_reading()
    ensures ampersand { ¬ HasReading (codes "a & b") }
    ensures other_reference { ¬ HasReading (codes "&colon;") }
    ensures unended_reference { ¬ HasReading (codes "&amp") }
    ensures quote { ¬ HasReading (codes "\"") }
    ensures angle { ¬ HasReading (codes "a > b") }
    ensures quote_in_value { ¬ HasReading (codes "<a href=\"\"\"></a>") }
    ensures angle_in_value { ¬ HasReading (codes "<a href=\"<\"></a>") }
    ensures closing_angle_in_value { ¬ HasReading (codes "<a href=\">\"></a>") }
    ensures ampersand_in_value { ¬ HasReading (codes "<a href=\"&\"></a>") }
    ensures nul { ¬ HasReading (0 ∷ []) }
{}

/// Links with no protocol, or with one that a link may have.
pub fn safe_links()
    ensures no_protocol { HasReadingWith is_safe_link (codes "<a href=\"a\"></a>") }
    ensures nothing { HasReadingWith is_safe_link (codes "<a href=\"\"></a>") }
    ensures https { HasReadingWith is_safe_link (codes "<a href=\"https://a\"></a>") }
    ensures upper_case { HasReadingWith is_safe_link (codes "<a href=\"HTTP:a\"></a>") }
    ensures mailto { HasReadingWith is_safe_link (codes "<a href=\"mailto:a\"></a>") }
    ensures colon_in_a_path { HasReadingWith is_safe_link (codes "<a href=\"./a:b\"></a>") }
    ensures colon_in_a_query { HasReadingWith is_safe_link (codes "<a href=\"?a:b\"></a>") }
    ensures colon_in_a_fragment { HasReadingWith is_safe_link (codes "<a href=\"#a:b\"></a>") }
    ensures nested { HasReadingWith is_safe_link (codes "<p><em><a href=\"irc:a\"></a></em></p>") }
    ensures another_attribute { HasReadingWith is_safe_link
        (codes "<a title=\"javascript:a\"></a>") }
    ensures an_image { HasReadingWith is_safe_link (codes "<img src=\"data:a\" />") }
{}

/// Links with another protocol.
pub fn unsafe_links()
    ensures javascript { ¬ HasReadingWith is_safe_link (codes "<a href=\"javascript:a\"></a>") }
    ensures data { ¬ HasReadingWith is_safe_link (codes "<a href=\"data:a\"></a>") }
    ensures longer { ¬ HasReadingWith is_safe_link (codes "<a href=\"httpsx:a\"></a>") }
    ensures shorter { ¬ HasReadingWith is_safe_link (codes "<a href=\"htt:a\"></a>") }
    ensures empty_protocol { ¬ HasReadingWith is_safe_link (codes "<a href=\":a\"></a>") }
    ensures reference_in_the_protocol { ¬ HasReadingWith is_safe_link
        (codes "<a href=\"http&amp;:a\"></a>") }
    ensures nested { ¬ HasReadingWith is_safe_link
        (codes "<p><em><a href=\"javascript:a\"></a></em></p>") }
    ensures after_a_safe_one { ¬ HasReadingWith is_safe_link
        (codes "<a href=\"a\"></a><a href=\"b:c\"></a>") }
{}

/// Images with no protocol, or with one that an image may have.
pub fn safe_images()
    ensures no_protocol { HasReadingWith is_safe_image (codes "<img src=\"a\" />") }
    ensures https { HasReadingWith is_safe_image (codes "<img src=\"https:a\" />") }
    ensures a_link { HasReadingWith is_safe_image (codes "<a href=\"javascript:a\"></a>") }
{}

/// Images with another protocol.
pub fn unsafe_images()
    ensures data { ¬ HasReadingWith is_safe_image (codes "<img src=\"data:a\" />") }
    ensures of_a_link { ¬ HasReadingWith is_safe_image (codes "<img src=\"mailto:a\" />") }
{}

/// The protocols of links and of images, and the names that the tag filter escapes.
pub fn lists_are_as_written()
    ensures links { link_protocols
        ≡ codes "http" ∷ codes "https" ∷ codes "irc" ∷ codes "ircs" ∷ codes "mailto"
        ∷ codes "xmpp" ∷ [] }
    ensures images { image_protocols ≡ codes "http" ∷ codes "https" ∷ [] }
    ensures disarmed { disarmed_names
        ≡ codes "iframe" ∷ codes "noembed" ∷ codes "noframes" ∷ codes "plaintext" ∷ codes "script"
        ∷ codes "style" ∷ codes "textarea" ∷ codes "title" ∷ codes "xmp" ∷ [] }
{}

/// The test reports equal ids, whatever stands between them, and doesn't report different ids.
pub fn equal_ids_are_told()
    ensures differ { HasDistinctIds (codes "<li id=\"a\"></li><li id=\"b\"></li>") }
    ensures other_attribute { HasDistinctIds (codes "<a title=\"a\"></a><a title=\"a\"></a>") }
    ensures equal { ¬ HasDistinctIds
        (codes "<li id=\"a\"></li><li id=\"b\"></li><li id=\"a\"></li>") }
    ensures nested { ¬ HasDistinctIds (codes "<li id=\"a\"><a id=\"a\"></a></li>") }
    ensures after_others { ¬ HasDistinctIds
        (codes "<a href=\"#x\" id=\"a\"></a><a href=\"#y\" id=\"a\"></a>") }
    ensures headings { ¬ HasDistinctIds (codes "<h2 id=\"a\"></h2><li id=\"a\"></li>") }
    ensures referenced { ¬ HasDistinctIds
        (codes "<li id=\"&amp;a\"></li>&lt;<li id=\"&amp;a\"></li>") }
{}
