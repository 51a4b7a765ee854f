//! Documents, patches, and what each patch makes of its document.

/// A document, a patch, and the document that it makes; or the number of the operation that is refused, and why. The
/// kinds of the first rows are those of the examples of RFC 6902.
pub const PATCHED: [(&str, &str, &str); 36] = [
    // A member and an item are added, removed, replaced, moved, tested.
    (
        r#"{"tea":"black"}"#,
        r#"[{"op":"add","path":"/milk","value":"oat"}]"#,
        r#"{"tea":"black","milk":"oat"}"#,
    ),
    (
        r#"{"cups":["red","blue"]}"#,
        r#"[{"op":"add","path":"/cups/1","value":"green"}]"#,
        r#"{"cups":["red","green","blue"]}"#,
    ),
    (
        r#"{"milk":"oat","tea":"black"}"#,
        r#"[{"op":"remove","path":"/milk"}]"#,
        r#"{"tea":"black"}"#,
    ),
    (
        r#"{"cups":["red","green","blue"]}"#,
        r#"[{"op":"remove","path":"/cups/1"}]"#,
        r#"{"cups":["red","blue"]}"#,
    ),
    (
        r#"{"milk":"oat","tea":"black"}"#,
        r#"[{"op":"replace","path":"/milk","value":"cow"}]"#,
        r#"{"milk":"cow","tea":"black"}"#,
    ),
    (
        r#"{"tray":{"tea":"black","jug":1},"shelf":{"pot":2}}"#,
        r#"[{"op":"move","from":"/tray/jug","path":"/shelf/jug"}]"#,
        r#"{"tray":{"tea":"black"},"shelf":{"pot":2,"jug":1}}"#,
    ),
    (
        r#"{"jobs":["fill","boil","pour","wait"]}"#,
        r#"[{"op":"move","from":"/jobs/1","path":"/jobs/3"}]"#,
        r#"{"jobs":["fill","pour","wait","boil"]}"#,
    ),
    (
        r#"{"tea":"black","cups":["a",2,"c"]}"#,
        r#"[{"op":"test","path":"/tea","value":"black"},{"op":"test","path":"/cups/1","value":2}]"#,
        r#"{"tea":"black","cups":["a",2,"c"]}"#,
    ),
    (
        r#"{"tea":"black"}"#,
        r#"[{"op":"test","path":"/tea","value":"green"}]"#,
        "0 TestFailed",
    ),
    (
        r#"{"tea":"black"}"#,
        r#"[{"op":"add","path":"/tray","value":{"sugar":{}}}]"#,
        r#"{"tea":"black","tray":{"sugar":{}}}"#,
    ),
    (
        r#"{"tea":"black"}"#,
        r#"[{"note":7,"value":"oat","path":"/milk","op":"add"}]"#,
        r#"{"tea":"black","milk":"oat"}"#,
    ),
    (
        r#"{"tea":"black"}"#,
        r#"[{"op":"add","path":"/milk/kind","value":"oat"}]"#,
        "0 NoPlace",
    ),
    (
        r#"{"/":9,"~1":10}"#,
        r#"[{"op":"test","path":"/~01","value":10},{"op":"test","path":"/~1","value":9}]"#,
        r#"{"/":9,"~1":10}"#,
    ),
    (
        r#"{"~1":10}"#,
        r#"[{"op":"test","path":"/~01","value":"10"}]"#,
        "0 TestFailed",
    ),
    (
        r#"{"cups":["red"]}"#,
        r#"[{"op":"add","path":"/cups/-","value":["green","blue"]}]"#,
        r#"{"cups":["red",["green","blue"]]}"#,
    ),
    // A member that is there is replaced in its place.
    (
        r#"{"a":1,"b":2,"c":3}"#,
        r#"[{"op":"add","path":"/b","value":5}]"#,
        r#"{"a":1,"b":5,"c":3}"#,
    ),
    // The complete tree.
    ("1.50", r#"[{"op":"add","path":"","value":[2.0]}]"#, "[2.0]"),
    (
        "[1]",
        r#"[{"op":"replace","path":"","value":null}]"#,
        "null",
    ),
    ("[1]", r#"[{"op":"remove","path":""}]"#, "0 WholeFile"),
    ("[1]", r#"[{"op":"copy","from":"","path":"/0"}]"#, "[[1],1]"),
    // Items of arrays.
    ("[1]", r#"[{"op":"add","path":"/1","value":2}]"#, "[1,2]"),
    (
        "[1]",
        r#"[{"op":"add","path":"/2","value":2}]"#,
        "0 NoPlace",
    ),
    (
        "[1]",
        r#"[{"op":"replace","path":"/-","value":2}]"#,
        "0 NoPlace",
    ),
    ("[1]", r#"[{"op":"remove","path":"/00"}]"#, "0 NotAPlace"),
    (
        "[1]",
        r#"[{"op":"remove","path":"/18446744073709551616"}]"#,
        "0 NoPlace",
    ),
    // Contents that are not there.
    (
        "[1]",
        r#"[{"op":"copy","from":"/1","path":"/0"}]"#,
        "0 NoPlace",
    ),
    (
        "[1]",
        r#"[{"op":"test","path":"/0/a","value":1}]"#,
        "0 NotAPlace",
    ),
    // A move into itself, and one to where it is.
    (
        r#"{"a":{"b":1}}"#,
        r#"[{"op":"move","from":"/a","path":"/a/b"}]"#,
        "0 IntoItself",
    ),
    (
        r#"{"a":1,"b":2}"#,
        r#"[{"op":"move","from":"/a","path":"/a"}]"#,
        r#"{"a":1,"b":2}"#,
    ),
    // The second operation is refused, and the numbers of a document stay to the letter.
    (
        r#"{"a":1.50}"#,
        r#"[{"op":"add","path":"/b","value":1e2},{"op":"remove","path":"/c"}]"#,
        "1 NoPlace",
    ),
    (
        r#"{"a":1.50}"#,
        r#"[{"op":"copy","from":"/a","path":"/b"}]"#,
        r#"{"a":1.50,"b":1.50}"#,
    ),
    // Numbers by value, objects in any order.
    (
        r#"[1.0,-0,{"a":1,"b":2}]"#,
        r#"[{"op":"test","path":"","value":[10e-1,0.00,{"b":2,"a":1}]}]"#,
        r#"[1.0,-0,{"a":1,"b":2}]"#,
    ),
    (
        "[1e1000000000000000000]",
        r#"[{"op":"test","path":"/0","value":10e999999999999999999}]"#,
        "0 TestFailed",
    ),
    (
        "[1e1000000000000000000]",
        r#"[{"op":"test","path":"/0","value":1e1000000000000000000}]"#,
        "[1e1000000000000000000]",
    ),
    // What is no patch.
    ("1", r#"{"op":"add","path":"","value":1}"#, "NotAList"),
    (
        "1",
        r#"[{"op":"test","path":"","value":1},{"op":"remove","path":"a"}]"#,
        "1 BadPath",
    ),
];
