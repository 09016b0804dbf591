// The pipeline over a generated feed.

/// A pipeline over the lines of [`lines`](crate::lines), which lie in files below `in`: a table of SCD type 2 by AUTO CDC, and
/// a materialized view that counts its rows by city.
pub const PIPELINE: &str = "CREATE OR REFRESH STREAMING TABLE history;
CREATE FLOW changes AS AUTO CDC INTO history FROM STREAM read_files('in', format => 'json',
 schema => 'id INT, city STRING, op STRING, seq BIGINT') KEYS (id)
 APPLY AS DELETE WHEN op = 'DELETE' SEQUENCE BY seq COLUMNS * EXCEPT (op, seq)
 STORED AS SCD TYPE 2;
CREATE OR REFRESH MATERIALIZED VIEW per_city AS SELECT city, count(*) AS n
 FROM history GROUP BY city;
";
