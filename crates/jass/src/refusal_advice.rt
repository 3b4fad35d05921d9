/// What a refusal says of a file, and what to do: one sentence each, as the tables of docs/GUIDE.md have them. Empty for
/// a number that no file is refused by.
pub fn refusal_advice(number: &str) -> &'static str {
    match number {
        "10" => "it ends too early, or a value runs past its message: copy or export it again",
        "11" => "it has a number that doesn't fit 64 bits: it is no CIFF file, or is damaged",
        "12" => "it has a field that can't be one: it is no CIFF file, or is damaged",
        "13" => "it has a number that is negative or too large: mend the exporter",
        "14" => "it has a text that isn't UTF-8: decode the texts before the export",
        "15" => "a list has a document twice: add its frequencies up",
        "16" => "it names a document that its header doesn't count: see that docids are gaps",
        "17" => "it has a frequency of 0: leave such postings out",
        "18" => "it has two lists of one term: join them",
        "19" => "it has two records of one document: leave one out",
        "20" =>
            "a document's name is empty, too long, or has a blank or a control character: change it",
        "21" => "it goes on behind its last message: see whether two files were joined",
        "22" =>
            "it is above a limit, or has a term of more than 65,535 bytes: split the collection",
        "23" => "it was changed while it was read: import it again once nobody writes it",
        "30" | "31" | "32" | "33" => "a payload is damaged: copy the file again, or import it anew",
        "39" => "it is an index of version 1: `jass migrate` writes it in version 2",
        "40" => "it is no index file: give what `jass import` made",
        "41" => "it is cut, or longer than it says: copy it again",
        "42" | "43" | "44" =>
            "a name, a term or a head is damaged: copy the file again, or import it anew",
        "46" | "47" => "its postings or totals don't hold: copy the file again, or import it anew",
        "48" => "it is above a limit: split the collection",
        "49" => "its index would have more than 2^32 bytes: fewer bits, or split the collection",
        "50" => "the line isn't UTF-8: convert the file",
        "51" => "the line begins with a blank: begin each line with an id",
        "52" => "the query has more than 256 terms of the index: shorten it",
        "53" => "the query names a term more than 255 times: smaller factors",
        "54" => "the line has more than 1,048,576 bytes: shorten it",
        "55" => "it has more than 2^28 bytes: split it",
        "56" =>
            "the query has more than 64 terms of the index: shorten it, or search without until=final",
        "57" => "the parts have more than 67,108,864 documents together: fewer parts at a time",
        "58" => "the parts have more than 536,870,912 postings together: fewer parts at a time",
        "80" => "the line hasn't the six columns of a TREC run, with Q0 in the second",
        "81" => "the line's rank or score is no number",
        "82" => "it has more than 2^32 bytes",
        _ => "",
    }
}
