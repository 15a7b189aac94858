//! Lines with what they say, digits 0.

ghost use Rattle.std.specs.Prelude.{◌≤◌, length};
ghost use Rattle.act_script.specs.Cutting.{IsOpen};

use super::*;
use act_geom::Shape;
use act_grid::Layers;
use std::alloc::{AllocError, Global};
use std::test::Fail;

/// The points of a shape, ring after ring.
fn spelled_shape(alloc: Global, shape: &Shape) -> Result<String, AllocError> {
    let mut text = String::new(alloc);
    for k in 0..shape.rings() {
        text.push('[')?;
        for point in shape.ring(k) {
            text.push_str(format!(in alloc; "({} {})", point.x, point.y)?.as_str())?;
        }
        text.push(']')?;
    }
    Ok(text)
}

/// A set as a text.
fn spelled_set(alloc: Global, set: &Layers) -> Result<String, AllocError> {
    let mut text = String::from_str(alloc, "layers")?;
    let mut count: u32 = 0;
    for layer in 0..256u32 {
        if set.has(layer << 24) {
            text.push_str(format!(in alloc; " {layer}")?.as_str())?;
            count = count.saturating_add(1);
        }
    }
    if count == 256 {
        return String::from_str(alloc, "all layers");
    }
    Ok(text)
}

/// An item as a text.
fn spelled_item(alloc: Global, item: &Item) -> Result<String, AllocError> {
    match item {
        Item::Zone { key, shape } => {
            let rings = spelled_shape(alloc, shape)?;
            format!(in alloc; "zone {key} {rings}")
        }
        Item::Replace { key, shape } => {
            let rings = spelled_shape(alloc, shape)?;
            format!(in alloc; "replace {key} {rings}")
        }
        Item::DropZone { key } => format!(in alloc; "drop {key}"),
        Item::Train { threshold } => format!(in alloc; "train {threshold}"),
        Item::At { id, point } => format!(in alloc; "point {id} ({} {})", point.x, point.y),
        Item::Batch => String::from_str(alloc, "batch"),
        Item::Sync => String::from_str(alloc, "sync"),
        Item::Layers { set } => spelled_set(alloc, set),
    }
}

/// An answer about a line as a text.
fn spelled(alloc: Global, answer: &Result<Option<Item>, LineFault>) -> Result<String, AllocError> {
    match answer {
        Ok(Some(item)) => spelled_item(alloc, item),
        Ok(None) => String::from_str(alloc, "blank"),
        Err(fault) => format!(in alloc; "{fault:?}"),
    }
}

/// The answer about a cut line as a text.
fn answer_to(alloc: Global, line: &[u8]) -> Result<String, AllocError> {
    let mut cutter = Cutter::new(alloc);
    let told = cutter.take(line).is_ok() && cutter.finish().is_ok();
    if !told {
        return String::from_str(alloc, "not cut");
    }
    spelled(alloc, &read_line(alloc, cutter.line(), 0))
}

#[test]
fn table_of_lines(rt: HostRuntime) -> Result<(), Fail> {
    let alloc = rt.alloc();
    let cases: [(&[u8], &str); 12] = [
        (b"circle,1", "Kind"),
        (b"point,1,0", "Fields"),
        (b"batch,1", "Fields"),
        (b"zone,-1,\"POLYGON EMPTY\"", "Key"),
        (b"drop,4294967296", "Key"),
        (b"drop,007", "drop 7"),
        (b"point,x,0,0", "PointId"),
        (b"point,1,a,99999999999", "Number"),
        (b"point,1,99999999999,a", "Range"),
        (
            b"point,18446744073709551615,1.5,-1.5",
            "point 18446744073709551615 (2 -2)",
        ),
        (b"train,0", "Threshold"),
        (b"Zone,1,\"POLYGON EMPTY\"", "Kind"),
    ];
    for (line, wanted) in &cases {
        assert_eq!(rt; answer_to(alloc, line)?.as_str(), *wanted);
    }
    Ok(())
}

#[test]
fn hostile_lines(rt: HostRuntime) -> Result<(), Fail> {
    let alloc = rt.alloc();
    let cases: [(&[u8], &str); 12] = [
        (b"zone,1,\"POLYGON EMPTY\"\"", "Fields"),
        (b"syn\rc", "Fields"),
        (b"\0", "Kind"),
        (
            b"zone,1,\"POLYGON((((0 0\"",
            "Wkt { kind: Number, place: 9 }",
        ),
        (b"point,1,0,0\"", "Fields"),
        (b"a\"b,\"c", "Kind"),
        (b"layers,*\"", "Fields"),
        (b",", "Kind"),
        (b"sync ", "Kind"),
        (b"sync,", "Fields"),
        (b"\"sync", "Fields"),
        (b"\"sy\"nc", "sync"),
    ];
    for (line, wanted) in &cases {
        assert_eq!(rt; answer_to(alloc, line)?.as_str(), *wanted);
    }
    Ok(())
}

#[test]
fn blank_lines_and_marks(rt: HostRuntime) -> Result<(), Fail> {
    let alloc = rt.alloc();
    let cases: [(&[u8], &str); 8] = [
        (b"", "blank"),
        (b" \t ", "blank"),
        (b"\t\r", "blank"),
        (b"\r\r", "Fields"),
        (b"\xEF\xBB\xBF\xEF\xBB\xBF  ", "blank"),
        (b"\xEF\xBB\xBF\xEF\xBB\xBFsync", "sync"),
        (b" \xEF\xBB\xBFsync", "Kind"),
        (b"\xEF\xBBsync", "Kind"),
    ];
    for (line, wanted) in &cases {
        assert_eq!(rt; answer_to(alloc, line)?.as_str(), *wanted);
    }
    Ok(())
}

#[test]
fn points(rt: HostRuntime) -> Result<(), Fail> {
    let alloc = rt.alloc();
    let cases: [(&[u8], &str); 14] = [
        (b"\"point\",\"1\",\"2\",\"-3\"", "point 1 (2 -3)"),
        (b"point,\"1\",2,3", "point 1 (2 3)"),
        (b"point,1,2,3", "point 1 (2 3)"),
        (b"point,18446744073709551616,0,0", "PointId"),
        (b"point,+1,0,0", "PointId"),
        (b"point, 1,0,0", "PointId"),
        (b"point,,0,0", "PointId"),
        (b"point,1,0,", "Number"),
        (b"point,1,2147483648,x", "Range"),
        (b"point,1,0,2147483648", "Range"),
        (b"point,1,0,0,", "Fields"),
        (b"point,", "Fields"),
        (b"point", "Fields"),
        (b"point,1,1e1,+.5", "point 1 (10 1)"),
    ];
    for (line, wanted) in &cases {
        assert_eq!(rt; answer_to(alloc, line)?.as_str(), *wanted);
    }
    Ok(())
}

#[test]
fn shapes(rt: HostRuntime) -> Result<(), Fail> {
    let alloc = rt.alloc();
    let cases: [(&[u8], &str); 8] = [
        (
            b"zone,1,\"POLYGON((0 0,1 0,1 1,0 0))\"",
            "zone 1 [(0 0)(1 0)(1 1)]",
        ),
        (
            b"replace,4294967295,\"polygon empty\"",
            "replace 4294967295 ",
        ),
        (
            b"zone,1,\"POLYGON((0 0,1 0,1 1,0 1))\"",
            "Wkt { kind: NotClosed, place: 24 }",
        ),
        (b"zone,1,POLYGON EMPTY", "zone 1 "),
        (b"zone,x,\"CIRCLE\"", "Key"),
        (b"replace,1,CIRCLE", "Wkt { kind: Keyword, place: 0 }"),
        (
            b"zone,1,\"POINT(1 2)\"",
            "Wkt { kind: OtherType, place: 0 }",
        ),
        (b"zone,1,POLYGON((0 0,1 0,1 1,0 0))", "Fields"),
    ];
    for (line, wanted) in &cases {
        assert_eq!(rt; answer_to(alloc, line)?.as_str(), *wanted);
    }
    Ok(())
}

#[test]
fn quoted_fields(rt: HostRuntime) -> Result<(), Fail> {
    let alloc = rt.alloc();
    let cases: [(&[u8], &str); 12] = [
        (b"drop,\"7\"", "drop 7"),
        (b"drop,7,\"\"", "Fields"),
        (b"drop,\"7", "Fields"),
        (b"drop,\"7\" ", "Key"),
        (b"drop,\"\"\"7\"", "Key"),
        (b"\"drop\",\"7\"", "drop 7"),
        (b",\"sync\"", "Kind"),
        (b"sync\"\"", "Kind"),
        (b"drop\r,\"7\"", "Fields"),
        (b"drop,\"7\r\"", "Fields"),
        (b"layers,\"1;2\"", "layers 1 2"),
        (b"point,1,2,\"3\"", "point 1 (2 3)"),
    ];
    for (line, wanted) in &cases {
        assert_eq!(rt; answer_to(alloc, line)?.as_str(), *wanted);
    }
    Ok(())
}

#[test]
fn drops_and_layers(rt: HostRuntime) -> Result<(), Fail> {
    let alloc = rt.alloc();
    let cases: [(&[u8], &str); 12] = [
        (b"drop,", "Key"),
        (b"drop", "Fields"),
        (b"drop,1,2", "Fields"),
        (b"layers,256", "Layers"),
        (b"layers,", "Layers"),
        (b"layers,1;", "Layers"),
        (b"layers", "Fields"),
        (b"layers,2;5;2;005", "layers 2 5"),
        (b"layers,255", "layers 255"),
        (b"layers,**", "Layers"),
        (b"layers,*", "all layers"),
        (b"batch", "batch"),
    ];
    for (line, wanted) in &cases {
        assert_eq!(rt; answer_to(alloc, line)?.as_str(), *wanted);
    }
    Ok(())
}

#[test]
fn trainings(rt: HostRuntime) -> Result<(), Fail> {
    let alloc = rt.alloc();
    let cases: [(&[u8], &str); 14] = [
        (b"train,1", "train 1"),
        (b"train,007", "train 7"),
        (b"train,4294967295", "train 4294967295"),
        (b"train,4294967296", "Threshold"),
        (b"train,00", "Threshold"),
        (b"train,", "Threshold"),
        (b"train,-1", "Threshold"),
        (b"train, 1", "Threshold"),
        (b"train,x\"\"", "Threshold"),
        (b"train", "Fields"),
        (b"train,1,2", "Fields"),
        (b"train,0,0", "Fields"),
        (b"train,\"5\"", "train 5"),
        (b"Train,1", "Kind"),
    ];
    for (line, wanted) in &cases {
        assert_eq!(rt; answer_to(alloc, line)?.as_str(), *wanted);
    }
    Ok(())
}

#[test]
fn most_layers(rt: HostRuntime) -> Result<(), Fail> {
    let alloc = rt.alloc();
    let mut line = Vec::new(alloc);
    line.extend_from_slice(b"layers,7")?;
    for _ in 0..255 {
        line.extend_from_slice(b";7")?;
    }
    assert_eq!(rt; answer_to(alloc, &line)?.as_str(), "layers 7");
    line.extend_from_slice(b";7")?;
    assert_eq!(rt; answer_to(alloc, &line)?.as_str(), "Layers");
    Ok(())
}
